//! Pictures of worked traces, byte for byte, and a sink that fails. The pictures were made by a plain
//! program of its own, and looked at.
ghost use Rattle.std.specs.Prelude.{◌≤◌, IfSome};

use super::THREE_TASKS;
use command_words::Asked;
use sched_edges::MemSink;
use std::alloc::Global;
use std::process::Abort;
use trace_check::{ReadTrace, check_trace, read_trace};
use trace_draw::{shown_window, write_picture};

// ---- parts that several worked pictures share

// The style sheet.
const STYLE: &str =
    "<style>text{font:125px ui-monospace,DejaVu Sans Mono,monospace}.h{font-size:180px;font-weight:bold}
.n,.a,.u,.s{fill:#444}.l,.s,.e,.u,.ok,.bad{text-anchor:end}.m,.a{text-anchor:middle}.l,.e{font-size:115px}
.ok,.bad{font-size:160px;fill:#00603f}.e{font-weight:bold}.e,.bad{fill:#b00000}.q,.s{font-size:85px}.j{font-size:45px}
.s.x,.s.y{font-size:110px}.p{fill:#f2f2f2}.g,.b,.r,.f,.o{fill:none;stroke:#bbb;stroke-width:6}.b{stroke:#999}
.r,.o{stroke:#000;stroke-width:14}.o{fill:#fff}.f{stroke:#b00000;stroke-width:24}.w{fill:#b00000}
.c0{color:#0072b2}.c1{color:#e69f00}.c2{color:#009e73}.c3{color:#cc79a7}
.c4{color:#56b4e9}.c5{color:#d55e00}.c6{color:#f0e442}.c7{color:#595959}
.m{dominant-baseline:central;stroke:currentColor;stroke-width:.2em;paint-order:stroke}.m.c0,.m.c7{fill:#fff}
.v0,.v1,.v2,.v3{fill:currentColor}.v1,.v2,.v3{stroke:#000;stroke-width:12}
.v2{stroke-dasharray:40}.v3{stroke-dasharray:160 60}
@media(max-width:900px){.h{font-size:300px}.ok,.bad{font-size:260px}.l,.e{transform:translateY(-30px)}
.s{transform:translateY(15px)}.x{font-size:230px}.y,.s.y{font-size:160px}.s.x{font-size:220px}}</style>
";

// How each picture begins, up to its height.
const SVG: &str = "<svg xmlns='http://www.w3.org/2000/svg' role='img' aria-labelledby='t d'
 viewBox='0 0 12000 ";

// The height and the words of a picture of three tasks on two processors, up to the verdict.
const TITLE: &str = "3870'>
<title id='t'>Schedule of 3 tasks on 2 processors</title>
<desc id='d'>A lane for each processor, and below them one for each task;
units 0 to 3 of 3; ";

// What stands behind the verdict.
const DESCRIBED: &str = "</desc>
";

// The first lines that are drawn of three tasks, up to the verdict.
const CAPTION: &str = "<rect width='12000' height='3870' fill='#fff'/>
<text class='h' x='250' y='330'>3 tasks on 2 processors</text>
<text class='n x' x='250' y='560'>units 0 to 3 of 3</text>
<text class='u x' x='11600' y='560'>one unit is 3 ticks</text>
";

// The lanes of the processors, the axis, and the boxes of the first row, which is task b's.
const LANES: &str = "<text class='l x' x='1780' y='1215'>cpu 0</text>
<rect class='p' x='1900' y='1000' width='9700' height='340'/>
<text class='l x' x='1780' y='1635'>cpu 1</text>
<rect class='p' x='1900' y='1420' width='9700' height='340'/>
<path class='g' d='M1900 880V3270'/>
<text class='a x' x='1900' y='840'>0</text>
<path class='g' d='M5133 880V3270'/>
<text class='a x' x='5133' y='840'>1</text>
<path class='g' d='M8366 880V3270'/>
<text class='a x' x='8366' y='840'>2</text>
<path class='g' d='M11600 880V3270'/>
<text class='a x' x='11600' y='840'>3</text>
<g class='c1 v0'><title>b</title>
<rect x='1900' y='1000' width='3233' height='340'/>
<rect x='1900' y='2540' width='3233' height='230'/>
</g>
";

// The boxes of the third row and of the fourth.
const OTHER_ROWS: &str = "<g class='c2 v0'><title>c</title>
<rect x='1900' y='1420' width='6466' height='340'/>
<rect x='1900' y='2940' width='6466' height='230'/>
</g>
<g class='c1 v0'><title>b</title>
<rect x='8366' y='1420' width='3234' height='340'/>
<rect x='8366' y='2540' width='3234' height='230'/>
</g>
";

// The lane of task a, from its work and period up to its first release.
const LANE_OF_A: &str = "<text class='s x' x='1780' y='2420'>2/3</text>
<path class='b' d='M1900 2370H11600'/>
<path class='r' d='M1900 2370v-290m-45 70l45-70l45 70'/>
";

// From the end of task a's period up to the first release of task c.
const LANES_OF_B_AND_C: &str = "<path class='r' d='M11600 2370v-290m-45 70l45-70l45 70'/>
<text class='l x' x='1780' y='2640'>b</text>
<text class='s x' x='1780' y='2820'>2/3</text>
<path class='b' d='M1900 2770H11600'/>
<path class='r' d='M1900 2770v-290m-45 70l45-70l45 70'/>
<circle class='o' cx='11600' cy='2770' r='40'/>
<path class='r' d='M11600 2770v-290m-45 70l45-70l45 70'/>
<text class='l x' x='1780' y='3040'>c</text>
<text class='s x' x='1780' y='3220'>2/3</text>
<path class='b' d='M1900 3170H11600'/>
<path class='r' d='M1900 3170v-290m-45 70l45-70l45 70'/>
";

// The end of task c's period.
const LAST_RELEASE: &str = "<path class='r' d='M11600 3170v-290m-45 70l45-70l45 70'/>
";

// The words on the first row.
const WORDS_OF_B: &str = "<text class='m c1 x' x='3516' y='1170'>b</text>
<text class='m c1 x' x='3516' y='2655'>0</text>
";

// The words on the third row and on the fourth.
const OTHER_WORDS: &str = "<text class='m c2 x' x='5133' y='1590'>c</text>
<text class='m c2 x' x='5133' y='3055'>1</text>
<text class='m c1 x' x='9983' y='1590'>b</text>
<text class='m c1 x' x='9983' y='2655'>1</text>
";

// The last lines.
const LEGEND: &str =
    "<text class='n x' x='250' y='3480'>arrow: release, and deadline of the job before</text>
<text class='n x' x='250' y='3740'>ring: the period has its work; red: at fault</text>
</svg>
";

// ---- worked pictures

const THREE_TASKS_PICTURE: &[&str] = &[
    SVG,
    TITLE,
    "valid",
    DESCRIBED,
    STYLE,
    CAPTION,
    "<text class='ok' x='11600' y='330'>valid</text>\n",
    LANES,
    "<g class='c0 v0'><title>a</title>
<rect x='5133' y='1000' width='6467' height='340'/>
<rect x='5133' y='2140' width='6467' height='230'/>
</g>
",
    OTHER_ROWS,
    "<text class='l x' x='1780' y='2240'>a</text>\n",
    LANE_OF_A,
    "<circle class='o' cx='11600' cy='2370' r='40'/>\n",
    LANES_OF_B_AND_C,
    "<circle class='o' cx='8366' cy='3170' r='40'/>\n",
    LAST_RELEASE,
    WORDS_OF_B,
    "<text class='m c0 x' x='8366' y='1170'>a</text>
<text class='m c0 x' x='8366' y='2255'>0</text>
",
    OTHER_WORDS,
    LEGEND,
];

// An offset of one and an idle row, from unit 1 for three units.
const OFFSET: &str =
    "run-trace 2\nprocessors 1\nhorizon 5\nscale 2\ntasks 2\ntask a 1 2 1\ntask b 1 2 0\nrow 0 0 1 -\nrow 0 1 3 b\n\
        row 0 3 5 a\nrow 0 5 7 b\nrow 0 7 9 a\nrow 0 9 10 b\ntotal a 4\ntotal b 5\nmet a 0 5\nmet a 1 9\nmet b 0 3\n\
        met b 1 7\nrows 6\n";

const OFFSET_ABOVE: &str = "3050'>
<title id='t'>Schedule of 2 tasks on 1 processor</title>
<desc id='d'>A lane for each processor, and below them one for each task;
units 1 to 4 of 5; valid</desc>
";

const OFFSET_BELOW: &str = "<rect width='12000' height='3050' fill='#fff'/>
<text class='h' x='250' y='330'>2 tasks on 1 processor</text>
<text class='n x' x='250' y='560'>units 1 to 4 of 5; all: draw --units 5</text>
<text class='u x' x='11600' y='560'>one unit is 2 ticks</text>
<text class='ok' x='11600' y='330'>valid</text>
<text class='l x' x='1780' y='1215'>cpu 0</text>
<rect class='p' x='1900' y='1000' width='9700' height='340'/>
<path class='g' d='M1900 880V2450'/>
<text class='a x' x='1900' y='840'>1</text>
<path class='g' d='M5133 880V2450'/>
<text class='a x' x='5133' y='840'>2</text>
<path class='g' d='M8366 880V2450'/>
<text class='a x' x='8366' y='840'>3</text>
<path class='g' d='M11600 880V2450'/>
<text class='a x' x='11600' y='840'>4</text>
<g class='c1 v0'><title>b</title>
<rect x='1900' y='1000' width='1616' height='340'/>
<rect x='1900' y='2120' width='1616' height='230'/>
</g>
<g class='c0 v0'><title>a</title>
<rect x='3516' y='1000' width='3234' height='340'/>
<rect x='3516' y='1720' width='3234' height='230'/>
</g>
<g class='c1 v0'><title>b</title>
<rect x='6750' y='1000' width='3233' height='340'/>
<rect x='6750' y='2120' width='3233' height='230'/>
</g>
<g class='c0 v0'><title>a</title>
<rect x='9983' y='1000' width='1617' height='340'/>
<rect x='9983' y='1720' width='1617' height='230'/>
</g>
<text class='l x' x='1780' y='1820'>a</text>
<text class='s x' x='1780' y='2000'>1/2 @1</text>
<path class='b' d='M1900 1950H11600'/>
<path class='r' d='M1900 1950v-290m-45 70l45-70l45 70'/>
<circle class='o' cx='6750' cy='1950' r='40'/>
<path class='r' d='M8366 1950v-290m-45 70l45-70l45 70'/>
<text class='l x' x='1780' y='2220'>b</text>
<text class='s x' x='1780' y='2400'>1/2</text>
<path class='b' d='M1900 2350H11600'/>
<circle class='o' cx='3516' cy='2350' r='40'/>
<path class='r' d='M5133 2350v-290m-45 70l45-70l45 70'/>
<circle class='o' cx='9983' cy='2350' r='40'/>
<path class='r' d='M11600 2350v-290m-45 70l45-70l45 70'/>
<text class='m c1 x' x='2708' y='1170'>b</text>
<text class='m c1 x' x='2708' y='2235'>0</text>
<text class='m c0 x' x='5133' y='1170'>a</text>
<text class='m c0 x' x='5133' y='1835'>0</text>
<text class='m c1 x' x='8366' y='1170'>b</text>
<text class='m c1 x' x='8366' y='2235'>0</text>
<text class='m c0 x' x='10791' y='1170'>a</text>
<text class='m c0 x' x='10791' y='1835'>0</text>
<text class='n x' x='250' y='2660'>arrow: release, and deadline of the job before</text>
<text class='n x' x='250' y='2920'>ring: the period has its work; red: at fault</text>
</svg>
";

// The period of task a has a tick too few.
const SHORT: &str =
    "run-trace 1\nprocessors 2\nhorizon 3\nscale 3\ntasks 3\ntask a 2 3\ntask b 2 3\ntask c 2 3\nrow 0 0 3 b\n\
        row 0 3 8 a\nrow 1 0 6 c\nrow 1 6 9 b\ntotal a 5\ntotal b 6\ntotal c 6\nrows 4\n";

const SHORT_PICTURE: &[&str] = &[
    SVG,
    TITLE,
    "line 13: supply",
    DESCRIBED,
    STYLE,
    CAPTION,
    "<text class='bad' x='11600' y='330'>line 13: supply</text>\n",
    LANES,
    "<g class='c0 v0'><title>a</title>
<rect x='5133' y='1000' width='5389' height='340'/>
<rect x='5133' y='2140' width='5389' height='230'/>
</g>
",
    OTHER_ROWS,
    "<text class='e x' x='1780' y='2240'>a</text>\n",
    LANE_OF_A,
    "<rect class='w' x='1900' y='2350' width='9700' height='40'/>\n",
    LANES_OF_B_AND_C,
    "<circle class='o' cx='8366' cy='3170' r='40'/>\n",
    LAST_RELEASE,
    WORDS_OF_B,
    "<text class='m c0 x' x='7827' y='1170'>a</text>
<text class='m c0 x' x='7827' y='2255'>0</text>
",
    OTHER_WORDS,
    LEGEND,
];

// Task c runs on two processors at once.
const OVERLAP: &str =
    "run-trace 1\nprocessors 2\nhorizon 3\nscale 3\ntasks 3\ntask a 2 3\ntask b 2 3\ntask c 2 3\nrow 0 0 3 b\n\
        row 0 3 9 c\nrow 1 0 6 c\nrow 1 6 9 b\ntotal a 0\ntotal b 6\ntotal c 12\nrows 4\n";

const OVERLAP_PICTURE: &[&str] = &[
    SVG,
    TITLE,
    "line 11: task-overlap",
    DESCRIBED,
    STYLE,
    CAPTION,
    "<text class='bad' x='11600' y='330'>line 11: task-overlap</text>\n",
    LANES,
    "<g class='c2 v0'><title>c</title>
<rect x='5133' y='1000' width='6467' height='340'/>
<rect x='5133' y='2940' width='6467' height='230'/>
</g>
",
    OTHER_ROWS,
    "<text class='l x' x='1780' y='2240'>a</text>\n",
    LANE_OF_A,
    "<rect class='w' x='1900' y='2350' width='9700' height='40'/>\n",
    LANES_OF_B_AND_C,
    "<rect class='w' x='1900' y='3150' width='9700' height='40'/>\n",
    LAST_RELEASE,
    "<rect class='f' x='1900' y='1420' width='6466' height='340'/>
<rect class='f' x='1900' y='2940' width='6466' height='230'/>
",
    WORDS_OF_B,
    "<text class='m c2 x' x='8366' y='1170'>c</text>
<text class='m c2 x' x='8366' y='3055'>0</text>
",
    OTHER_WORDS,
    LEGEND,
];

/// Compares what a sink takes of the picture of a trace with these parts. Where calls of the sink fail, it is a first part of them.
fn compare_picture(
    rt: &impl Abort,
    alloc: Global,
    trace: &ReadTrace,
    asked: &Asked,
    fails: &[u64],
    parts: &[&str],
)
    requires { IfSome asked.now.units (λ n. 1 ≤ n) }
{
    let window = shown_window(trace, asked);
    let mut sink = MemSink::new(alloc, 16_384, fails).expect(rt, "there is memory");
    let written = write_picture(&mut sink, trace, &window, check_trace(trace));
    assert!(rt; written.is_ok() == fails.is_empty());
    compare_bytes(rt, alloc, sink.taken(), parts, fails.is_empty());
}

/// Compares bytes with these parts, of which they are a first part if not the whole.
fn compare_bytes(rt: &impl Abort, alloc: Global, taken: &[u8], parts: &[&str], whole: bool) {
    let all = parts.concat(alloc).expect(rt, "there is memory");
    assert!(rt; all.as_bytes().starts_with(taken));
    assert!(rt; !whole || all.len() == taken.len());
}

fn trace_of(rt: &impl Abort, alloc: Global, text: &str) -> ReadTrace {
    read_trace(alloc, text.as_bytes()).expect(rt, "the text is a trace")
}

/// Compares the parts of the picture of a trace text.
fn compare(rt: &impl Abort, alloc: Global, text: &str, asked: &Asked, fails: &[u64], parts: &[&str])
    requires { IfSome asked.now.units (λ n. 1 ≤ n) }
{
    let trace = trace_of(rt, alloc, text);
    compare_picture(rt, alloc, &trace, asked, fails, parts);
}

#[test]
fn worked_traces_have_their_pictures(rt: HostRuntime) {
    let alloc = rt.alloc();
    let all = Asked {
        from: 0,
        units: None,
    };
    let middle = Asked {
        from: 1,
        units: Some(3),
    };
    let offset: [&str; 4] = [SVG, OFFSET_ABOVE, STYLE, OFFSET_BELOW];
    compare(&rt, alloc, THREE_TASKS, &all, &[], THREE_TASKS_PICTURE);
    compare(&rt, alloc, THREE_TASKS, &all, &[3], THREE_TASKS_PICTURE);
    compare(&rt, alloc, OFFSET, &middle, &[], &offset);
    compare(&rt, alloc, SHORT, &all, &[], SHORT_PICTURE);
    compare(&rt, alloc, OVERLAP, &all, &[], OVERLAP_PICTURE);
}

/// The first unit and the number of units that are asked for, and those that are shown.
const WINDOWS: &[(u64, Option<u64>, u64, u64)] = &[
    (0, None, 0, 5),
    (2, None, 2, 3),
    (4, Some(9), 4, 1),
    (5, None, 4, 1),
    (4_294_967_296, Some(1), 4, 1),
];

/// A window past the horizon is its last unit, and one never has no unit.
fn compare_windows(rt: &impl Abort, trace: &ReadTrace) {
    for (from, units, first, count) in WINDOWS {
        let asked = Asked {
            from: *from,
            units: *units,
        };
        let window = shown_window(trace, &asked);
        assert!(rt;
            (window.scale, window.from, window.units) == (2, *first, *count),
            "from unit {from}"
        );
    }
}

#[test]
fn the_units_shown_are_those_asked_for(rt: HostRuntime) {
    let trace = trace_of(&rt, rt.alloc(), OFFSET);
    compare_windows(&rt, &trace);
}
