// Laws for proofs about thin functions over a lent struct. The prover walks the code of such functions by itself, so none is needed. There is no code here.
#![tactic(auto)]
