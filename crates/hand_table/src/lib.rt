//! Small censuses worked out by hand: the definitions that the contracts cite give the same.
#![tactic(auto)]

ghost use Rattle.hand_table.specs.Table.{HandTable};

// The lists and the numbers of the hand table are those that the definitions give.
pub fn hand_table_stands()
    ensures { HandTable }
{}
