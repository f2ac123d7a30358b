// What is proved of texts and scores, for every kind.
ghost use Rattle.grammar.specs.Theorems.{OneAnswer, ReadExactly, WrittenBack};

// A text gives one answer at most; only scores that may be held are read, each from its file alone; and the file of such a score is read as that score.
pub fn files_stand() -> u8
    ensures one { OneAnswer }
    ensures exact { ReadExactly }
    ensures back { WrittenBack }
{
    0
}
