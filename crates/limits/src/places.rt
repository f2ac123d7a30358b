// Cases of places that a rack of 8 does not have, that are empty or full, and of the order in which they are tried.
use crate::call::{clear, drop, normalise, parallel, rest, reverse, rewrite, sequence, take, tell};
use crate::counts::grown;
use crate::table::Table;
use algebra::limits::LONGEST;

// The last place, and the one behind it.
pub fn unknown(table: &mut Table<'_>) {
    table.case("the last place", &[], &[rest(7, 5), tell(7)], "ok 5 1 0");
    table.case("rest at 8", &[], &[rest(8, 5)], "refused 21 rack 8");
    table.case("tell of 8", &[], &[tell(8)], "refused 21 rack 8");
    table.case("clear of 8", &[], &[clear(8)], "refused 21 rack 8");
    let calls = [rewrite(8, 0, 1, 0, 0)];
    table.case("rewrite of 8", &[], &calls, "refused 21 rack 8");
    let calls = [tell(u32::MAX)];
    table.case(
        "tell of all bits",
        &[],
        &calls,
        "refused 21 rack 4294967295",
    );
}

// Sources that are empty.
pub fn empty(table: &mut Table<'_>) {
    let one = [rest(0, 5)];
    table.case("tell of nothing", &one, &[tell(3)], "refused 22 rack 3");
    table.case("clear of nothing", &one, &[clear(3)], "refused 22 rack 3");
    table.case(
        "cleared twice",
        &one,
        &[clear(0), clear(0)],
        "refused 22 rack 0",
    );
    let calls = [sequence(2, 3, 0)];
    table.case("nothing and a rest", &one, &calls, "refused 22 rack 3");
    let calls = [parallel(2, 0, 4)];
    table.case("a rest beside nothing", &one, &calls, "refused 22 rack 4");
    let calls = [reverse(2, 3)];
    table.case("reverse of nothing", &one, &calls, "refused 22 rack 3");
    let calls = [rewrite(3, 0, 1, 0, 0)];
    table.case("rewrite of nothing", &one, &calls, "refused 22 rack 3");
}

// Destinations that are full.
pub fn full(table: &mut Table<'_>) {
    let two = [rest(0, 5), rest(1, 6)];
    table.case("rest on a rest", &two, &[rest(1, 0)], "refused 23 rack 1");
    let calls = [sequence(1, 0, 0)];
    table.case("a sequence on a rest", &two, &calls, "refused 23 rack 1");
    let calls = [parallel(0, 0, 1)];
    table.case("a parallel on its part", &two, &calls, "refused 23 rack 0");
    let calls = [reverse(0, 0)];
    table.case("a reverse on its source", &two, &calls, "refused 23 rack 0");
    let calls = [take(1, 0, 1)];
    table.case("a take on a rest", &two, &calls, "refused 23 rack 1");
    let calls = [drop(1, 0, 1)];
    table.case("a drop on a rest", &two, &calls, "refused 23 rack 1");
    let calls = [normalise(1, 0)];
    table.case("a normal form on a rest", &two, &calls, "refused 23 rack 1");
    let calls = [clear(1), reverse(1, 0), tell(1)];
    table.case("a reverse where a rest was", &two, &calls, "ok 5 1 0");
}

// The least number first, and for one number the destination first.
pub fn order(table: &mut Table<'_>) {
    let one = [rest(0, 5)];
    let calls = [sequence(8, 9, 10)];
    table.case("destination first", &one, &calls, "refused 21 rack 8");
    let calls = [sequence(1, 9, 10)];
    table.case("first source next", &one, &calls, "refused 21 rack 9");
    let calls = [sequence(1, 0, 10)];
    table.case("second source last", &one, &calls, "refused 21 rack 10");
    let calls = [reverse(8, 9)];
    table.case(
        "destination before source",
        &one,
        &calls,
        "refused 21 rack 8",
    );
    let calls = [rest(8, LONGEST + 1)];
    table.case("10 before 21", &one, &calls, "refused 10 rack 16777216");
    let calls = [sequence(1, 3, 8)];
    table.case("21 before 22", &one, &calls, "refused 21 rack 8");
    let calls = [sequence(0, 4, 3)];
    table.case("22 before 23", &one, &calls, "refused 22 rack 4");
    let calls = [sequence(2, 1, 1)];
    table.case("23 before 26", &grown(0), &calls, "refused 23 rack 2");
}
