// What the length of an image decides, stated and proved of the definitions. There is no code here.
#![tactic(auto)]
