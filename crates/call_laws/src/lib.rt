// What past its checks a cipher call meets, for every suite. No code.
#![tactic(auto)]
