// The lookup tables that cipher calls are lent (document 01, section 7: nothing is kept between calls): made once, only where a call needs them.
#![tactic(auto)]

// The table of sealing, that of opening, and the rows of substitutions and of their inverses. What no call needs may stand for anything.
#[derive(Clone, Copy)]
pub struct Tables<'a> {
    pub seal: &'a [u8; 8192],
    pub unseal: &'a [u8; 8192],
    pub forward: &'a [u8; 1024],
    pub backward: &'a [u8; 1024],
}
