// What is proved of scores: each function's contract is a group of theorems, and the function does nothing.
ghost use Rattle.algebra.specs.Theorems.{SoundAndComplete, ChainMeans, StepSize, ChainSize, ChainLegal};
ghost use Rattle.algebra.specs.Theorems.{NormalReached, AfterReached, SelfAfter, AfterDecides, BothAfterDecide, NormalSize, NormalFits, AfterByPlaced, AfterOtherLength};
ghost use Rattle.algebra.specs.Theorems.{JoinMeans, TakeMeans, DropMeans, ReverseMeans, JoinSize, CutSize, CutFits, ReverseSize, ReverseFits};
ghost use Rattle.algebra.specs.Theorems.{OtherSides, RewritesThere, RewritesNowhere, RewritesStep, StepsRewrite, RewriteSize};
ghost use Rattle.algebra.specs.Theorems.{CompareSays, CompareSame};

// Chains lead exactly where length and bag agree, and keep the number of primitives and their being legal.
pub fn rules_stand() -> u8
    ensures meaning { SoundAndComplete }
    ensures chain { ChainMeans }
    ensures step { StepSize }
    ensures count { ChainSize }
    ensures legal { ChainLegal }
{
    0
}

// Every score has a chain to its normal forms, and the one after a model tells whether a chain leads to the model.
pub fn normal_forms_stand() -> u8
    ensures reached { NormalReached }
    ensures after { AfterReached }
    ensures itself { SelfAfter }
    ensures decides { AfterDecides }
    ensures both { BothAfterDecide }
    ensures size { NormalSize }
    ensures fits { NormalFits }
    ensures placed { AfterByPlaced }
    ensures apart { AfterOtherLength }
{
    0
}

// Joins follow from the lengths and bags of their parts, and take, drop and reverse by the bag rules.
pub fn meanings_stand() -> u8
    ensures join { JoinMeans }
    ensures take { TakeMeans }
    ensures drop { DropMeans }
    ensures reverse { ReverseMeans }
{
    0
}

// How large joins, cuts and reversals are, and which of them there is room for.
pub fn sizes_stand() -> u8
    ensures join { JoinSize }
    ensures cut { CutSize }
    ensures room { CutFits }
    ensures reverse { ReverseSize }
    ensures limit { ReverseFits }
{
    0
}

// Rewriting puts one side of a rule for the other at a node, which is a step, and every step is done so.
pub fn rewriting_stands() -> u8
    ensures sides { OtherSides }
    ensures there { RewritesThere }
    ensures nowhere { RewritesNowhere }
    ensures step { RewritesStep }
    ensures every { StepsRewrite }
    ensures size { RewriteSize }
{
    0
}

// Comparing says same exactly where a chain leads, and else by what length or least placed primitive the scores differ.
pub fn comparing_stands() -> u8
    ensures says { CompareSays }
    ensures same { CompareSame }
{
    0
}
