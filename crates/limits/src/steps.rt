// Cases of rewriting: numbers that it does not take, nodes that are not there, steps that do not fit, and splits.
use crate::call::{rest, rewrite, sequence, tell};
use crate::table::Table;

// Rule, way and split, tried in this order.
pub fn values(table: &mut Table<'_>) {
    let one = [rest(0, 720)];
    let calls = [rewrite(0, 0, 0, 0, 0)];
    table.case("rule 0", &one, &calls, "refused 10 rack 0");
    let calls = [rewrite(0, 0, 10, 0, 0)];
    table.case("rule 10", &one, &calls, "refused 10 rack 10");
    let calls = [rewrite(0, 0, 7, 2, 0)];
    table.case("way 2", &one, &calls, "refused 10 rack 2");
    let calls = [rewrite(0, 0, 6, 1, 5)];
    table.case("a split at rule 6", &one, &calls, "refused 10 rack 5");
    let calls = [rewrite(0, 0, 7, 0, 5)];
    table.case("a split forth", &one, &calls, "refused 10 rack 5");
    let calls = [rewrite(0, 0, 10, 2, 5)];
    table.case("rule before way", &one, &calls, "refused 10 rack 10");
    let calls = [rewrite(0, 0, 6, 2, 5)];
    table.case("way before split", &one, &calls, "refused 10 rack 2");
    let calls = [rewrite(8, 0, 6, 1, 5)];
    table.case("split before place", &one, &calls, "refused 10 rack 5");
}

// Nodes that are not there, and rules that do not fit.
pub fn fits(table: &mut Table<'_>) {
    let held = [rest(0, 720), rest(1, 0), sequence(2, 0, 1)];
    let calls = [rewrite(0, 1, 5, 1, 0)];
    table.case("node 1 of 1", &held, &calls, "refused 24 rack 1");
    let calls = [rewrite(2, 3, 5, 1, 0)];
    table.case("node 3 of 3", &held, &calls, "refused 24 rack 3");
    let calls = [rewrite(2, u32::MAX, 1, 0, 0)];
    table.case("node of all bits", &held, &calls, "refused 24 rack 3");
    let calls = [rewrite(0, 0, 1, 0, 0)];
    table.case("rule 1 at a rest", &held, &calls, "refused 25 rack 0");
    let calls = [rewrite(2, 2, 9, 0, 0)];
    table.case("rule 9 at a rest", &held, &calls, "refused 25 rack 2");
    let calls = [rewrite(2, 0, 4, 0, 0)];
    table.case(
        "rule 4 where rule 5 fits",
        &held,
        &calls,
        "refused 25 rack 0",
    );
    let calls = [rewrite(2, 0, 5, 0, 0), tell(2)];
    table.case("rule 5", &held, &calls, "ok 720 1 0");
    let calls = [rewrite(2, 2, 5, 1, 0), tell(2)];
    table.case("rule 5 back at the last node", &held, &calls, "ok 720 5 0");
}

// A rest of 720 ticks, split.
pub fn splits(table: &mut Table<'_>) {
    let one = [rest(0, 720)];
    let calls = [rewrite(0, 0, 7, 1, 0), tell(0)];
    table.case("split 0", &one, &calls, "ok 720 3 0");
    let calls = [rewrite(0, 0, 7, 1, 480), tell(0)];
    table.case("split 480", &one, &calls, "ok 720 3 0");
    let calls = [rewrite(0, 0, 7, 1, 720), tell(0)];
    table.case("split 720", &one, &calls, "ok 720 3 0");
    let calls = [rewrite(0, 0, 7, 1, 721)];
    table.case("split 721", &one, &calls, "refused 25 rack 0");
    let calls = [rewrite(0, 0, 7, 1, u32::MAX)];
    table.case("split of all bits", &one, &calls, "refused 25 rack 0");
    let calls = [rewrite(0, 0, 7, 1, 480), rewrite(0, 0, 7, 0, 0), tell(0)];
    table.case("split and put together", &one, &calls, "ok 720 1 0");
}
