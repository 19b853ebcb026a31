// A cipher ready to seal: the table, the round keys of a key, and their numbers of columns and of rounds, which always travel together.
#![tactic(auto)]

ghost use Rattle.std.specs.Prelude.{◌≡◌, ◌+◌, ◌*◌, ◌<◌, ◌≤◌, length};
ghost use Rattle.lookup.specs.Table.{seal_table};
ghost use Rattle.blocks.specs.Blocks.{Width};
ghost use Rattle.sealer.specs.Widths.{width_prop};

// The keys 0 to `rounds` stand one after another, `columns` columns each.
#[derive(Clone, Copy)]
pub struct Sealer<'a> {
    pub table: &'a [u8; 8192],
    pub keys: &'a [u64],
    pub columns: usize,
    pub rounds: usize,
    pub ghost tabled: { table.now ≡ seal_table },
    pub ghost width: { Width columns } by { width_prop columns },
    pub ghost some_rounds: { 0 < rounds },
    pub ghost few_rounds: { rounds ≤ 18 },
    pub ghost keyed: { columns * (rounds + 1) ≤ length keys.now },
}

impl<'a> Sealer<'a> {
    ghost use Rattle.words.specs.Words.{Walked};
    ghost use Rattle.kalyna.specs.Block.{seal};
    ghost use Rattle.sealer.specs.Sealing.{sealed};

    // n blocks of a cell, in place.
    pub fn seal(&self, s: &mut [u16], n: usize)
        requires { 4 * (self.now.columns * n) ≤ length s.old }
        ensures { Walked self.now.columns n (sealed self.now) s.old s.new }
    {
        seal_block::seal_blocks(self.table, s, n, self.columns, self.rounds, self.keys);
    }
}
