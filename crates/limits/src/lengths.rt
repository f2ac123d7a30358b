// Cases at the longest that a score may be, 16,777,215 ticks, and at both ends of a cut.
use crate::call::{clear, drop, note, parallel, rest, sequence, take, tell};
use crate::counts::grown;
use crate::table::Table;
use algebra::limits::LONGEST;

// The longest rest and others, joined.
pub fn joins(table: &mut Table<'_>) {
    let long = [rest(0, LONGEST), rest(1, 0), rest(2, 1)];
    let calls = [sequence(3, 0, 1), tell(3)];
    table.case("longest and 0", &long, &calls, "ok 16777215 3 0");
    let calls = [sequence(3, 0, 2)];
    table.case("longest and 1", &long, &calls, "refused 27 rack 16777216");
    let calls = [sequence(3, 2, 0)];
    table.case("1 and longest", &long, &calls, "refused 27 rack 16777216");
    let calls = [sequence(3, 0, 0)];
    table.case("longest twice", &long, &calls, "refused 27 rack 33554430");
    let calls = [parallel(3, 0, 0), tell(3)];
    table.case("longest beside itself", &long, &calls, "ok 16777215 3 0");
    let calls = [parallel(3, 2, 0), tell(3)];
    table.case("1 beside longest", &long, &calls, "ok 16777215 3 0");
    let calls = [clear(2), rest(2, LONGEST), clear(3), sequence(3, 1, 2)];
    table.case(
        "too many and too long",
        &grown(1),
        &calls,
        "refused 26 rack 1025",
    );
}

// Rests as long as may be, and longer.
pub fn rests(table: &mut Table<'_>) {
    let calls = [rest(0, LONGEST), tell(0)];
    table.case("longest rest", &[], &calls, "ok 16777215 1 0");
    let calls = [rest(0, LONGEST + 1)];
    table.case("rest too long", &[], &calls, "refused 10 rack 16777216");
    let calls = [rest(0, u32::MAX)];
    table.case(
        "rest of all bits",
        &[],
        &calls,
        "refused 10 rack 4294967295",
    );
}

// Cuts of a note of 480 ticks, and of the longest rest.
pub fn cuts(table: &mut Table<'_>) {
    let held = [note(0), rest(1, LONGEST)];
    let calls = [take(2, 0, 0), tell(2)];
    table.case("take 0", &held, &calls, "ok 0 1 0");
    let calls = [take(2, 0, 1), tell(2)];
    table.case("take 1", &held, &calls, "ok 1 1 1");
    let calls = [take(2, 0, 480), tell(2)];
    table.case("take all", &held, &calls, "ok 480 1 1");
    let calls = [take(2, 0, 481), tell(2)];
    table.case("take more", &held, &calls, "ok 480 1 1");
    let calls = [take(2, 1, u32::MAX), tell(2)];
    table.case("take all bits", &held, &calls, "ok 16777215 1 0");
    let calls = [drop(2, 0, 0), tell(2)];
    table.case("drop 0", &held, &calls, "ok 480 1 1");
    let calls = [drop(2, 0, 479), tell(2)];
    table.case("drop all but 1", &held, &calls, "ok 1 1 1");
    let calls = [drop(2, 0, 480), tell(2)];
    table.case("drop all", &held, &calls, "ok 0 1 0");
    let calls = [drop(2, 0, 481), tell(2)];
    table.case("drop more", &held, &calls, "ok 0 1 0");
    let calls = [drop(2, 1, LONGEST - 1), tell(2)];
    table.case("drop all of the longest but 1", &held, &calls, "ok 1 1 0");
}
