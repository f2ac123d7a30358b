// Worked examples of notes and clips, proved.
ghost use Rattle.kinds.specs.Examples.{Examples};

// Every line of the table holds; the function does nothing.
pub fn examples_stand() -> u8
    ensures { Examples }
{
    0
}
