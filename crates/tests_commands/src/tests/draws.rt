//! Pictures of traces by the command: worked ones, the windows of lines, refused texts, and faults in mid-stream. The pictures
//! were made by a plain program of its own, and looked at. The tests of pictures have some byte for byte, with the style sheet.

use super::cases::{Cases, Failing, ReplacedCase, ShownCase, Table, assert_tables};
use super::texts::{LATE_ROWS, THREE_ROWS};
use run_tool::Status;

/// The trace of three tasks of rate 2/3, where the last row begins before the one before it ends.
const OVERLAP_ROWS: &str =
    "run-trace 1\nprocessors 2\nhorizon 3\nscale 3\ntasks 3\ntask a 2 3\ntask b 2 3\ntask c 2 3\nrow 0 0 3 b\n\
        row 0 3 9 a\nrow 1 0 6 c\nrow 1 5 8 b\ntotal a 6\ntotal b 6\ntotal c 6\nrows 4\n";

// How the picture of its unit 1 begins, and what stands below the style sheet.
const UNIT_ABOVE: &str = "<svg xmlns='http://www.w3.org/2000/svg' role='img' aria-labelledby='t d'
 viewBox='0 0 12000 3870'>
<title id='t'>Schedule of 3 tasks on 2 processors</title>
<desc id='d'>A lane for each processor, and below them one for each task;
units 1 to 2 of 3; valid</desc>
";

const UNIT_BELOW: &str = "<rect width='12000' height='3870' fill='#fff'/>
<text class='h' x='250' y='330'>3 tasks on 2 processors</text>
<text class='n x' x='250' y='560'>units 1 to 2 of 3; all: draw --units 3</text>
<text class='u x' x='11600' y='560'>one unit is 3 ticks</text>
<text class='ok' x='11600' y='330'>valid</text>
<text class='l x' x='1780' y='1215'>cpu 0</text>
<rect class='p' x='1900' y='1000' width='9700' height='340'/>
<text class='l x' x='1780' y='1635'>cpu 1</text>
<rect class='p' x='1900' y='1420' width='9700' height='340'/>
<path class='g' d='M1900 880V3270'/>
<text class='a x' x='1900' y='840'>1</text>
<path class='g' d='M11600 880V3270'/>
<text class='a x' x='11600' y='840'>2</text>
<g class='c0 v0'><title>a</title>
<rect x='1900' y='1000' width='9700' height='340'/>
<rect x='1900' y='2140' width='9700' height='230'/>
</g>
<g class='c2 v0'><title>c</title>
<rect x='1900' y='1420' width='9700' height='340'/>
<rect x='1900' y='2940' width='9700' height='230'/>
</g>
<text class='l x' x='1780' y='2240'>a</text>
<text class='s x' x='1780' y='2420'>2/3</text>
<path class='b' d='M1900 2370H11600'/>
<text class='l x' x='1780' y='2640'>b</text>
<text class='s x' x='1780' y='2820'>2/3</text>
<path class='b' d='M1900 2770H11600'/>
<text class='l x' x='1780' y='3040'>c</text>
<text class='s x' x='1780' y='3220'>2/3</text>
<path class='b' d='M1900 3170H11600'/>
<circle class='o' cx='11600' cy='3170' r='40'/>
<text class='m c0 x' x='6750' y='1170'>a</text>
<text class='m c0 x' x='6750' y='2255'>0</text>
<text class='m c2 x' x='6750' y='1590'>c</text>
<text class='m c2 x' x='6750' y='3055'>1</text>
<text class='n x' x='250' y='3480'>arrow: release, and deadline of the job before</text>
<text class='n x' x='250' y='3740'>ring: the period has its work; red: at fault</text>
</svg>
";

// How the picture of the whole begins where the last row begins before the one before it ends, and all its boxes, lanes and words.
const OVERLAP_ABOVE: &str =
    "<svg xmlns='http://www.w3.org/2000/svg' role='img' aria-labelledby='t d'
 viewBox='0 0 12000 3870'>
<title id='t'>Schedule of 3 tasks on 2 processors</title>
<desc id='d'>A lane for each processor, and below them one for each task;
units 0 to 3 of 3; line 12: processor-overlap</desc>
";

const OVERLAP_BELOW: &str = "<g class='c1 v0'><title>b</title>
<rect x='1900' y='1000' width='3233' height='340'/>
<rect x='1900' y='2540' width='3233' height='230'/>
</g>
<g class='c0 v0'><title>a</title>
<rect x='5133' y='1000' width='6467' height='340'/>
<rect x='5133' y='2140' width='6467' height='230'/>
</g>
<g class='c2 v0'><title>c</title>
<rect x='1900' y='1420' width='6466' height='340'/>
<rect x='1900' y='2940' width='6466' height='230'/>
</g>
<g class='c1 v0'><title>b</title>
<rect x='7288' y='1420' width='3234' height='340'/>
<rect x='7288' y='2540' width='3234' height='230'/>
</g>
<text class='l x' x='1780' y='2240'>a</text>
<text class='s x' x='1780' y='2420'>2/3</text>
<path class='b' d='M1900 2370H11600'/>
<path class='r' d='M1900 2370v-290m-45 70l45-70l45 70'/>
<circle class='o' cx='11600' cy='2370' r='40'/>
<path class='r' d='M11600 2370v-290m-45 70l45-70l45 70'/>
<text class='l x' x='1780' y='2640'>b</text>
<text class='s x' x='1780' y='2820'>2/3</text>
<path class='b' d='M1900 2770H11600'/>
<path class='r' d='M1900 2770v-290m-45 70l45-70l45 70'/>
<circle class='o' cx='10522' cy='2770' r='40'/>
<path class='r' d='M11600 2770v-290m-45 70l45-70l45 70'/>
<text class='l x' x='1780' y='3040'>c</text>
<text class='s x' x='1780' y='3220'>2/3</text>
<path class='b' d='M1900 3170H11600'/>
<path class='r' d='M1900 3170v-290m-45 70l45-70l45 70'/>
<circle class='o' cx='8366' cy='3170' r='40'/>
<path class='r' d='M11600 3170v-290m-45 70l45-70l45 70'/>
<rect class='f' x='7288' y='1420' width='3234' height='340'/>
<rect class='f' x='7288' y='2540' width='3234' height='230'/>
<text class='m c1 x' x='3516' y='1170'>b</text>
<text class='m c1 x' x='3516' y='2655'>0</text>
<text class='m c0 x' x='8366' y='1170'>a</text>
<text class='m c0 x' x='8366' y='2255'>0</text>
<text class='m c2 x' x='5133' y='1590'>c</text>
<text class='m c2 x' x='5133' y='3055'>1</text>
<text class='m c1 x' x='8905' y='1590'>b</text>
<text class='m c1 x' x='8905' y='2655'>1</text>
<text class='n x' x='250' y='3480'>arrow: release, and deadline of the job before</text>
<text class='n x' x='250' y='3740'>ring: the period has its work; red: at fault</text>
</svg>
";

const UNIT: &[ShownCase] = &[(&[THREE_ROWS], UNIT_ABOVE, &[], UNIT_BELOW)];

/// An invalid trace is drawn too, and the command is done.
const OVERLAP: &[ShownCase] = &[(&[OVERLAP_ROWS], OVERLAP_ABOVE, &[], OVERLAP_BELOW)];

/// The words, and the units that the picture says it shows.
macro_rules! window {
    ([$($word:expr),*], $units:expr) => {
        (&[$($word),*], Cases::Shown(&[(&[LATE_ROWS], "", &[$units], "")]))
    };
}

const WINDOWS: &[Table] = &[
    window!(["draw"], "units 0 to 5 of 5"),
    window!(["draw", "--from", "2"], "units 2 to 5 of 5"),
    window!(["draw", "--from=2"], "units 2 to 5 of 5"),
    window!(["draw", "--units", "2"], "units 0 to 2 of 5"),
    window!(["draw", "--units=2"], "units 0 to 2 of 5"),
    window!(["draw", "--from", "1", "--units", "2"], "units 1 to 3 of 5"),
    window!(["draw", "--from", "1", "--units=2"], "units 1 to 3 of 5"),
    window!(["draw", "--from=1", "--units", "2"], "units 1 to 3 of 5"),
    window!(["draw", "--from=1", "--units=2"], "units 1 to 3 of 5"),
    window!(["draw", "--from", "0"], "units 0 to 5 of 5"),
    window!(["draw", "--units", "4294967295"], "units 0 to 5 of 5"),
    // At the horizon and past it the last unit is shown.
    window!(["draw", "--from", "4"], "units 4 to 5 of 5"),
    window!(["draw", "--from", "5"], "units 4 to 5 of 5"),
    window!(["draw", "--from=4294967295"], "units 4 to 5 of 5"),
    window!(["draw", "--from=9", "--units=9"], "units 4 to 5 of 5"),
];

#[test]
fn the_units_that_are_asked_for_are_drawn(rt: HostRuntime) {
    assert_tables(&rt, rt.alloc(), WINDOWS);
}

/// What stands in place of parts of the text.
const REPLACED: &[ReplacedCase] = &[
    (
        &[("row 1 6 9 b", "row 1 6 8 b")],
        Status::BadInput,
        "",
        "refused 6 BadLine 14\n",
    ),
    (
        &[("scale 3", "scale 4")],
        Status::BadInput,
        "",
        "refused 6 BadLine 4\n",
    ),
    (
        &[("tasks 3", "tasks 4")],
        Status::BadInput,
        "",
        "refused 6 BadLine 9\n",
    ),
    (
        &[("rows 4", "rows 5")],
        Status::BadInput,
        "",
        "refused 6 BadLine 16\n",
    ),
    (
        &[("run-trace 1", "run-trace 3")],
        Status::BadInput,
        "",
        "refused 6 BadLine 1\n",
    ),
];

/// A fault leaves a first part.
const FAILING: &[Failing] = &[
    Failing::Source(&[2]),
    Failing::Out(&[1], ""),
    Failing::Out(
        &[3],
        "<svg xmlns='http://www.w3.org/2000/svg' role='img' aria-labelledby='t d'\n viewBox='0 0 12000 3870'>\n",
    ),
];

const TABLES: &[Table] = &[
    (&["draw", "--from", "1", "--units=1"], Cases::Shown(UNIT)),
    (&["draw"], Cases::Shown(OVERLAP)),
    (&["draw"], Cases::Replaced(THREE_ROWS, REPLACED)),
    (&["draw"], Cases::Failing(&[THREE_ROWS], FAILING)),
];

#[test]
fn texts_and_streams_that_fail_leave_no_whole_picture(rt: HostRuntime) {
    assert_tables(&rt, rt.alloc(), TABLES);
}
