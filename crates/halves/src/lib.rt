// The laws by which the product's and the divisions' code comes to the definitions, over the width. There is no code here.
#![tactic(auto)]
