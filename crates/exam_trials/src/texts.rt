//! Banks, plans and scripts of the worked cases.

pub const SCRIPT_A: &str = "begin 70\nanswer 0 0 1\nanswer 0 1 0\nanswer 0 2 1\n";

pub const LINES_A: &str = "session 0 step 0 item 2 proved
session 0 step 1 item 4 proved
session 0 step 2 item 1 proved
session 0 complete
";

/// A passage of items 0, 1 and 2; item 2 is the best of all once its passage was left.
pub const BANK_S: &str = "item,stimulus,categories,i0,i1,l0_0,l0_1,l1_0,l1_1
0,1,2,9,1,-1,-1,-1,-1
1,1,2,3,1,-1,-1,-1,-1
2,1,2,2,90,-1,-1,-1,-1
3,0,2,8,1,-1,-1,-9,-1
4,0,2,7,1,-1,-1,-1,-1
";

/// The items 0, 1 and 2 are enemies of each other, and no multipliers show that only one of them is
/// in a form.
pub const BANK_E: &str = "item,stimulus,categories,i0,l0_0,l1_0
0,0,2,10,-1,-1
1,0,2,9,-1,-1
2,0,2,8,-1,-1
3,0,2,2,-1,-1
4,0,2,1,-1,-1
";

/// Two items have no odd sum, but two halves and a whole one have.
pub const BANK_ODD: &str = "item,stimulus,categories,q0,i0,l0_0,l1_0
0,0,2,1,5,-1,-1
1,0,2,1,5,-1,-1
2,0,2,3,5,-1,-1
3,0,2,3,5,-1,-1
";

pub const BANK_TIE: &str = "item,stimulus,categories,i0,l0_0,l1_0
0,0,2,5,-1,-1
1,0,2,5,-1,-1
2,0,2,5,-1,-1
";
