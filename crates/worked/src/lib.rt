// Worked cases of files, refusals and calls on a rack, proved as one table.
#![tactic(auto)]

ghost use Rattle.worked.specs.Worked.{Worked};

use kinds::examples;

// Every line of the table holds; the function does nothing.
pub fn examples_stand() -> u8
    ensures { Worked }
{
    examples::examples_stand()
}
