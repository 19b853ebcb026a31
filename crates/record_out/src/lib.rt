// Records written into a buffer from a place on (document 01, section 6).
#![tactic(auto)]

ghost use Rattle.std.specs.Prelude.{◌≡◌, [], ◌∷◌, ◌+◌, ◌/◌, ◌%◌, ◌≤◌, ◌<◌, length};
ghost use Rattle.records.specs.Record.{record_of};
ghost use Rattle.record_out.specs.Put.{put};

// A record's head at o: n bytes of payload, kind k.
pub fn put_head(out: &mut [u8], o: usize, n: usize, k: usize)
    requires { (o + 4 ≤ length out.old) × (n < 65536) × (k < 65536) }
    ensures { out.new ≡ put out.old o (n % 256 ∷ n / 256 ∷ k % 256 ∷ k / 256 ∷ []) }
{
    out[o] = (n % 256) as u8;
    out[o + 1] = (n / 256) as u8;
    out[o + 2] = (k % 256) as u8;
    out[o + 3] = (k / 256) as u8;
}

// A record of one byte.
pub fn put_leaf(out: &mut [u8], o: usize, k: usize, b: u8)
    requires { (o + 5 ≤ length out.old) × (k < 65536) }
    ensures { out.new ≡ put out.old o (record_of k (b ∷ [])) }
{
    put_head(out, o, 1, k);
    out[o + 4] = b;
}

// A record of kind k.
pub fn put_record(out: &mut [u8], o: usize, k: usize, v: &[u8])
    requires { (o + 4 + length v.now ≤ length out.old) × (length v.now < 65536) × (k < 65536) }
    ensures { out.new ≡ put out.old o (record_of k v.now) }
{
    handing::put(out, o + 4, v);
    put_head(out, o, v.len(), k);
}
