// A cipher ready to open: the table of opening and the rows of substitutions, the round keys mixed back, and their numbers of columns and of rounds, which always travel together.
#![tactic(auto)]

ghost use Rattle.std.specs.Prelude.{◌≡◌, ◌+◌, ◌*◌, ◌<◌, ◌≤◌, length};
ghost use Rattle.substitutions.specs.Tables.{substitutions, unsubstitutions};
ghost use Rattle.lookup.specs.Table.{open_table};
ghost use Rattle.blocks.specs.Blocks.{Width};
ghost use Rattle.sealer.specs.Widths.{width_prop};

// The keys 0 to `rounds` stand one after another, `columns` columns each.
#[derive(Clone, Copy)]
pub struct Opener<'a> {
    pub table: &'a [u8; 8192],
    pub forward: &'a [u8; 1024],
    pub backward: &'a [u8; 1024],
    pub keys: &'a [u64],
    pub columns: usize,
    pub rounds: usize,
    pub ghost tabled: { table.now ≡ open_table },
    pub ghost substituted: { forward.now ≡ substitutions },
    pub ghost unsubstituted: { backward.now ≡ unsubstitutions },
    pub ghost width: { Width columns } by { width_prop columns },
    pub ghost some_rounds: { 0 < rounds },
    pub ghost keyed: { columns * (rounds + 1) ≤ length keys.now },
}

impl<'a> Opener<'a> {
    ghost use Rattle.std.specs.Prelude.{List, ℕ};
    ghost use Rattle.words.specs.Words.{Walked};
    ghost use Rattle.opener.specs.Opening.{MixedBack, opened};

    // n blocks of a cell, in place.
    pub fn unseal(&self, s: &mut [u16], n: usize)
        requires { 4 * (self.now.columns * n) ≤ length s.old }
        ensures { (k : List ℕ) → MixedBack self.now k → Walked self.now.columns n (opened self.now k) s.old s.new }
    {
        open_block::open_blocks(
            self.table,
            self.forward,
            self.backward,
            s,
            n,
            self.columns,
            self.rounds,
            self.keys,
        );
    }
}
