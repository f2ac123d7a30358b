// Cases at the most nodes and primitives that a place has room for: 1,023 and 170.
use crate::call::{clear, normalise, note, parallel, rest, reverse, rewrite, sequence, tell};
use crate::table::Table;
use ledger::call::Call;

// A rest joined with itself again and again: 7 nodes at place 2, 15 at 3, and so on to 255 at 7, 511 at 0 and 1,023 at 1.
pub fn grown(ticks: u32) -> [Call<'static>; 12] {
    [
        rest(0, ticks),
        sequence(1, 0, 0),
        sequence(2, 1, 1),
        sequence(3, 2, 2),
        sequence(4, 3, 3),
        sequence(5, 4, 4),
        sequence(6, 5, 5),
        sequence(7, 6, 6),
        clear(0),
        sequence(0, 7, 7),
        clear(1),
        sequence(1, 0, 0),
    ]
}

// What makes 1,021 nodes of the 1,023 at place 1: a pair of its rests becomes one rest.
fn shrink() -> Call<'static> {
    rewrite(1, 8, 7, 0, 0)
}

// 85 notes at place 6, and one at place 0; place 7 is empty.
fn notes() -> [Call<'static>; 11] {
    [
        note(0),
        parallel(1, 0, 0),
        parallel(2, 1, 1),
        parallel(3, 2, 0),
        parallel(4, 3, 3),
        parallel(5, 4, 4),
        clear(1),
        clear(2),
        parallel(1, 5, 5),
        parallel(2, 1, 1),
        parallel(6, 2, 3),
    ]
}

// A rest joined with itself.
pub fn nodes(table: &mut Table<'_>) {
    let grown = grown(0);
    table.case("1 node", &[], &[rest(0, 0), tell(0)], "ok 0 1 0");
    let pair = [rest(0, 0), sequence(1, 0, 0), tell(1)];
    table.case("3 nodes", &[], &pair, "ok 0 3 0");
    table.case("7 nodes", &grown, &[tell(2)], "ok 0 7 0");
    table.case("15 nodes", &grown, &[tell(3)], "ok 0 15 0");
    table.case("31 nodes", &grown, &[tell(4)], "ok 0 31 0");
    table.case("63 nodes", &grown, &[tell(5)], "ok 0 63 0");
    table.case("127 nodes", &grown, &[tell(6)], "ok 0 127 0");
    table.case("255 nodes", &grown, &[tell(7)], "ok 0 255 0");
    table.case("511 nodes", &grown, &[tell(0)], "ok 0 511 0");
    table.case("1,023 nodes", &grown, &[tell(1)], "ok 0 1023 0");
}

// Joins to 1,023 nodes, and to 1,025, the next number that a score can have.
pub fn joined_nodes(table: &mut Table<'_>) {
    let grown = grown(0);
    let calls = [clear(2), rest(2, 0), clear(3), sequence(3, 1, 2)];
    table.case("1,023 nodes and 1", &grown, &calls, "refused 26 rack 1025");
    let calls = [clear(2), rest(2, 0), clear(3), parallel(3, 2, 1)];
    table.case(
        "1 node beside 1,023",
        &grown,
        &calls,
        "refused 26 rack 1025",
    );
    let calls = [
        shrink(),
        clear(2),
        rest(2, 0),
        clear(3),
        sequence(3, 1, 2),
        tell(3),
    ];
    table.case("1,021 nodes and 1", &grown, &calls, "ok 0 1023 0");
}

// Steps at 1,023 nodes, which keep them or change them by two.
pub fn stepped_nodes(table: &mut Table<'_>) {
    let grown = grown(0);
    let calls = [rewrite(1, 0, 4, 1, 0)];
    table.case(
        "a step up from 1,023",
        &grown,
        &calls,
        "refused 26 rack 1025",
    );
    let calls = [rewrite(1, 1022, 7, 1, 0)];
    table.case("a split at 1,023", &grown, &calls, "refused 26 rack 1025");
    let calls = [rewrite(1, 0, 1, 1, 0), tell(1)];
    table.case("a step within 1,023", &grown, &calls, "ok 0 1023 0");
    let calls = [shrink(), tell(1)];
    table.case("a step down from 1,023", &grown, &calls, "ok 0 1021 0");
    let calls = [shrink(), rewrite(1, 0, 4, 1, 0), tell(1)];
    table.case("a step up from 1,021", &grown, &calls, "ok 0 1023 0");
}

// A reverse has two nodes more for a parallel of unequal parts.
pub fn reversed_nodes(table: &mut Table<'_>) {
    let grown = grown(0);
    let calls = [clear(2), reverse(2, 1), tell(2)];
    table.case("a reverse of 1,023", &grown, &calls, "ok 0 1023 0");
    let calls = [
        shrink(),
        clear(2),
        rest(2, 1),
        clear(3),
        parallel(3, 1, 2),
        tell(3),
    ];
    table.case("1,023 and unequal", &grown, &calls, "ok 1 1023 0");
    let calls = [
        shrink(),
        clear(2),
        rest(2, 1),
        clear(3),
        parallel(3, 1, 2),
        clear(4),
        reverse(4, 3),
    ];
    table.case("a reverse to 1,025", &grown, &calls, "refused 26 rack 1025");
    let calls = [
        shrink(),
        rewrite(1, 9, 7, 0, 0),
        clear(2),
        rest(2, 1),
        clear(3),
        parallel(3, 1, 2),
        clear(4),
        reverse(4, 3),
        tell(4),
    ];
    table.case("a reverse to 1,023", &grown, &calls, "ok 1 1023 0");
}

// Notes side by side.
pub fn primitives(table: &mut Table<'_>) {
    let notes = notes();
    table.case("85 notes", &notes, &[tell(6)], "ok 480 169 85");
    let calls = [parallel(7, 6, 6), tell(7)];
    table.case("170 notes", &notes, &calls, "ok 480 339 170");
    let calls = [sequence(7, 6, 6), tell(7)];
    table.case("170 notes in sequence", &notes, &calls, "ok 960 339 170");
    let calls = [parallel(7, 6, 6), clear(1), parallel(1, 7, 0)];
    table.case("171 notes", &notes, &calls, "refused 26 rack 341");
    let calls = [parallel(7, 6, 6), clear(1), sequence(1, 0, 7)];
    table.case(
        "171 notes in sequence",
        &notes,
        &calls,
        "refused 26 rack 341",
    );
    let calls = [parallel(7, 6, 6), clear(1), sequence(1, 7, 7)];
    table.case("340 notes", &notes, &calls, "refused 26 rack 679");
}

// Normal forms: 6 nodes for each note, less one.
pub fn lines(table: &mut Table<'_>) {
    let notes = notes();
    let calls = [parallel(7, 6, 6), clear(1), normalise(1, 7), tell(1)];
    table.case("170 lines", &notes, &calls, "ok 480 1019 170");
    let calls = [sequence(7, 6, 6), clear(1), normalise(1, 7), tell(1)];
    table.case("170 lines at two onsets", &notes, &calls, "ok 960 1019 170");
    let calls = [clear(1), normalise(1, 0), tell(1)];
    table.case("1 line", &notes, &calls, "ok 480 5 1");
}
