// Worked examples of rolls and grids, proved.
ghost use Rattle.render.specs.Examples.{Examples};

// Every line of the table holds; the function does nothing.
pub fn examples_stand() -> u8
    ensures { Examples }
{
    0
}
