// Reads a recipe's text to its tree in records (document 01, sections 5 to 7), or to a number and its place.
#![tactic(auto)]

ghost use Rattle.std.specs.Prelude.{◌≡◌, ◌+◌, ◌*◌, ◌-◌, ◌/◌, ◌%◌, ◌≤◌, ◌<◌, length};
ghost use Rattle.records.specs.Encode.{encode};
ghost use Rattle.texts.specs.Reading.{literal_at, args_at, expr_at, read_text};
ghost use Rattle.text_reader.specs.Reader.{encodes, in_records, leaf_at, fault_at, told, parsed, Reads, Whole, Answers};

use answers::{Fault, Refusal};

// What was read: the place after it, the count of nodes so far, the end of its records.
#[derive(Clone, Copy, Debug, PartialEq, Eq)]
struct Step {
    place: usize,
    nodes: usize,
    end: usize,
}

// A refusal, at its place.
fn refused(refusal: Refusal, place: usize) -> Result<Step, Fault>
    ensures { result ≡ fault_at refusal place }
{
    Err(Fault { refusal, place })
}

// A name's digit, up to the byte hi, is due after its sign at p; its record has kind k.
fn name_at(
    s: &[u8],
    p: usize,
    n: usize,
    hi: u8,
    k: usize,
    out: &mut [u8],
    o: usize,
) -> Result<Step, Fault>
    requires { (p < length s.now) × (n < 128) × (k < 65536) × (o + 3 * (length s.now - p) ≤ length out.old) }
    ensures { Reads o (leaf_at k hi s.now p n) (told result) out.old out.new }
{
    tokens::due_at(s, b'0', hi, p + 1)?;
    record_out::put_leaf(out, o, k, s[p + 1] - b'0');
    Ok(Step {
        place: p + 2,
        nodes: n + 1,
        end: o + 5,
    })
}

// A literal whose first quote is at p: pairs of digits, the closing quote, then the head before them.
fn literal_at(s: &[u8], p: usize, n: usize, out: &mut [u8], o: usize) -> Result<Step, Fault>
    requires { (p < length s.now) × (n < 128) × (length s.now ≤ 4096) × (o + 3 * (length s.now - p) ≤ length out.old) }
    ensures { Reads o (in_records encode (literal_at s.now p n)) (told result) out.old out.new }
{
    let mut j: usize = 0; // as many as there are: no range to go over
    while let Some(b) = tokens::pair_at(s, p + 1 + 2 * j) {
        out[o + 4 + j] = b;
        j += 1;
    }
    let q = p + 1 + 2 * j;
    if tokens::digit_at(s, q).is_some() {
        return refused(Refusal::Syntax, q + 1);
    }
    tokens::due_at(s, b'\'', b'\'', q)?;
    if 1024 < j {
        return refused(Refusal::Long, p);
    }
    record_out::put_head(out, o, j, 1);
    Ok(Step {
        place: q + 1,
        nodes: n + 1,
        end: o + 4 + j,
    })
}

// An expression is due at p after n nodes, with d levels left; its records go to o.
#[cycle(arguments_expression)]
fn expression(
    s: &[u8],
    p: usize,
    d: usize,
    n: usize,
    out: &mut [u8],
    o: usize,
) -> Result<Step, Fault>
    requires { (p ≤ length s.now) × (length s.now ≤ 4096) × (o + 3 * (length s.now - p) ≤ length out.old) }
    ensures { Reads o (in_records encode (expr_at d s.now p n)) (told result) out.old out.new }
{
    if d == 0 {
        return refused(Refusal::Deep, p);
    }
    if 128 <= n {
        return refused(Refusal::Many, p);
    }
    if s.len() <= p {
        return refused(Refusal::Syntax, s.len());
    }
    match s[p] {
        b'\'' => literal_at(s, p, n, out, o),
        b'#' => name_at(s, p, n, b'3', 0x0004, out, o),
        b'$' => name_at(s, p, n, b'7', 0x0002, out, o),
        b'@' => name_at(s, p, n, b'3', 0x0003, out, o),
        _ => {
            let h = tokens::head_at(s, p)?;
            let a = arguments(s, h.place, d - 1, n + 1, b'(', h.arguments, out, o + 4)?;
            record_out::put_head(out, o, a.end - o - 4, h.kind);
            Ok(a)
        }
    }
}

// So many arguments are still due, the byte c before the next of them; their records go to o.
#[cycle(arguments_expression)]
fn arguments(
    s: &[u8],
    p: usize,
    d: usize,
    n: usize,
    c: u8,
    left: usize,
    out: &mut [u8],
    o: usize,
) -> Result<Step, Fault>
    requires { (p ≤ length s.now) × (length s.now ≤ 4096) × (o + 3 * (length s.now - p) ≤ length out.old) }
    ensures { Reads o (in_records encodes (args_at (expr_at d s.now) s.now left c p n)) (told result) out.old out.new }
{
    if left == 0 {
        tokens::due_at(s, b')', b')', p)?;
        return Ok(Step {
            place: p + 1,
            nodes: n,
            end: o,
        });
    }
    tokens::due_at(s, c, c, p)?;
    let a = expression(s, p + 1, d, n, out, o)?;
    arguments(s, a.place, d, a.nodes, b',', left - 1, out, a.end)
}

// After the root only the end.
fn whole(text: &[u8], out: &mut [u8]) -> Result<usize, Fault>
    requires { (length text.now ≤ 4096) × (3 * length text.now ≤ length out.old) }
    ensures { Whole (read_text text.now) (parsed result) out.old out.new }
{
    let root = expression(text, 0, 16, 0, out, 0)?;
    if root.place < text.len() {
        return Err(Fault {
            refusal: Refusal::Syntax,
            place: root.place,
        });
    }
    Ok(root.end)
}

// A text of at most 4,096 bytes to records in the front of a buffer three times as long: their length.
pub fn read(text: &[u8], out: &mut [u8]) -> Result<usize, Fault>
    requires { (length text.now ≤ 4096) × (3 * length text.now ≤ length out.old) }
    ensures { Answers (read_text text.now) (parsed result) out.old out.new }
{
    match whole(text, out) {
        Ok(n) => Ok(n),
        Err(f) => {
            out.fill(0);
            Err(f)
        }
    }
}
