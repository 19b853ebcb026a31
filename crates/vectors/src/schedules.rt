// The key schedule of document 003, section 6.5, which no entry hands out.
#[derive(Clone, Copy, PartialEq, Eq)]
pub(crate) enum Part {
    Helper,
    Rounds,
}

// Whether the columns from the first on have these bytes.
fn columns_are(columns: &[u64], want: &[u8]) -> bool {
    want.len() % 8 == 0
        && want.len() / 8 <= columns.len()
        && want
            .chunks_exact(8)
            .zip(columns)
            .all(|(bytes, column)| bytes == column.to_le_bytes().as_slice())
}

// Whether a key's helper key, or its round keys one after another, begin so.
pub(crate) fn are(part: Part, suite: u64, key: &[u8], want: &[u8]) -> bool {
    let Some(s) = suites::suite_of(suite) else {
        return false;
    };
    let k = s.key;
    let kc = k.0 / 64;
    if key.len() != 8 * kc {
        return false;
    }
    let t = seal_table::table();
    match part {
        Part::Helper => {
            let h = keys::helper_columns(&t, key, s.columns, kc);
            columns_are(&h, want)
        }
        Part::Rounds => {
            let ks = keys::schedule(&t, key, s.columns, kc, s.rounds);
            columns_are(&ks, want)
        }
    }
}
