//! The parts of the helps and of the version that are longer than a line.

/// The text that `--version` prints after the name: the version, and what the program routes by.
pub const VERSION: &str = "1.3.0 (formats of VPR 4.30, negotiated congestion)";

/// The end of the program's help.
pub const PROGRAM: &str = "\
Example, in examples/uart:
  $ pathfinder route uart.net k4n1.arch uart.place new.route --width 6
  routed, iterations 5
  $ pathfinder check uart.net k4n1.arch uart.place new.route --width 6
  legal

Exit status, of all commands:
  0  done: routed, a routed width was found, legal, or what was asked for was printed
  2  words that the command line may not have
  3  not routed, no routed width, or not legal
  4  bad input, as `error: arch line 10: Unsupported`; docs/FORMATS.md has all faults
  5  reading or writing failed
  6  memory ran out, or a thread could not be started

One of the files that are read may be -, standard input. ROUTE, where it is written, may be
/dev/stdout.

All answers and errors are printed on standard output. Standard error has warnings of files that
can't be written or would be written over another one; what is asked for there, as with `--explain`
what is wrong with a file or a routing; and, on a terminal, what is wrong with a file, and how far
the routing is.";

/// The end of the help of `route`.
pub const ROUTE: &str = "\
It prints one of
  routed, iterations 3
  not routed: unrouted 0, overused 1, iterations 30
where `unrouted` counts the nets that found no path, and `overused` the nodes that too many use.
With `--rest` standard error also names a sink of each net that found no path. docs/FORMATS.md has
the columns of a log.

Example, in examples/uart:
  $ pathfinder route uart.net k4n1.arch uart.place new.route --width 6
  routed, iterations 5

Exit status:
  0  routed
  2  words that the command line may not have
  3  not routed; ROUTE is left alone
  4  bad input, as `error: arch line 10: Unsupported`
  5  reading or writing failed, or ROUTE is an input
  6  memory ran out, or a thread could not be started";

/// The end of the help of `width`.
pub const WIDTH: &str = "\
The width is doubled until one is routed, up to 256. Then the gap between the greatest width that
was not routed and the least that was is halved. It prints a line for each width that it tried, and
a last one. At the end, standard error has a width below which no routing exists (`bound`).

A width below the least one may be routable all the same. `--verify 2` tries two of them, and
standard error has the outcome of each; a width that is routed counts. `--upward` tries each width
from the bound on, so that each width below the answer is impossible or was tried.

Examples, in examples/uart:
  $ pathfinder width uart.net k4n1.arch uart.place new.route
  width 12: routed
  width 6: routed
  width 3: not routed
  width 4: routed
  least routed width: 4
  no routing below width 3
  $ pathfinder width uart.net k4n1.arch uart.place new.route --upward --iterations 500
  no routing below width 3
  width 3: routed
  least routed width: 3
  3 is the least possible width

Exit status:
  0  a width was routed
  2  words that the command line may not have
  3  no width was routed; ROUTE is left alone
  4  bad input, as `error: arch line 10: Unsupported`
  5  reading or writing failed, or ROUTE is an input
  6  memory ran out, or a thread could not be started";

/// The end of the help of `check`.
pub const CHECK: &str = "\
It prints `legal`, or what is wrong first, as
  not legal: net 0 (a): NoSwitch
  not legal: node 39 CHANY (0,1) Track: 0 overused by 1
docs/FORMATS.md has the cause of each fault, and what to do. With `--explain` standard error gets a
line for each net that has a fault, with the line of ROUTE that it is about, one for each overused
node, and one for each line of ROUTE that names such a node:
  a.route:5: net a: MissingSink: no step leads to a sink of the net; none to SINK (1,1) Class: 0
  overused 1
  node 39 CHANY (0,1) Track: 0 used 2 of 1 nets a b
  a.route:9: net a uses node 39 CHANY (0,1) Track: 0
  a.route:18: net b uses node 39 CHANY (0,1) Track: 0

Example, in examples/uart:
  $ pathfinder check uart.net k4n1.arch uart.place uart.route --width 6
  legal

Exit status:
  0  legal
  2  words that the command line may not have
  3  not legal
  4  bad input, as `error: route line 10: NoNode`
  5  reading or writing failed
  6  memory ran out, or a thread could not be started";

/// The end of the help of `report`.
pub const REPORT: &str = "\
It prints a figure a line, after its name: the width below which there is no routing, as `bound`
prints it; nets and trees; wires and places that are used, of all; the wirelength, its mean and the
greatest of a net; so of each type of wire and of each channel; and what too many nets use, with
these nets and the lines of ROUTE that name it. docs/FORMATS.md has each line, what `--full-stats`
and `--map` add, and the members of `--json`.

Example, in examples/uart:
  $ pathfinder report uart.net k4n1.arch uart.place uart.route --width 6
  array 11 x 11
  width 6
  bound 3
  ..
  wirelength 602
  mean 5.28
  greatest 57 int_rst
  ..
  overused 0

Exit status:
  0  printed, whether the routing is legal or not
  2  words that the command line may not have
  4  bad input, as `error: route line 10: NoNode`
  5  reading or writing failed
  6  memory ran out";

/// The end of the help of `bound`.
pub const BOUND: &str = "\
It prints a width below which the placed design has no routing, by this or any other router, and
the reason: how many nets are cut, and by how many places of channels and pins. The bound is proved.
The least width that is routed may be greater. `--cut` writes a certificate of the bound, which
tools/recount counts again.

Example, in examples/uart:
  $ pathfinder bound uart.net k4n1.arch uart.place
  no routing below width 3
  3 nets are cut by 1 places of channels and 0 pins

Exit status:
  0  printed
  2  words that the command line may not have
  4  bad input, as `error: net line 10: BadLine`
  5  reading or writing failed, or FILE is an input
  6  memory ran out";

/// The end of the help of `graph`.
pub const GRAPH: &str = "\
It prints how many nodes and edges there are, a line for each node, and a line for each edge. With
`--types` the line of a wire ends in its type, as ` type 0`, and that of an edge into a wire in the
switch that drives it, as ` switch 0`; docs/FORMATS.md has both.

Example, in examples/uart:
  $ pathfinder graph k4n1.arch 1 1 1
  45 nodes, 51 edges
  0 SOURCE (0,1) Pad: 0 cap 1
  ..

Exit status:
  0  printed
  2  words that the command line may not have
  4  bad input, as `error: arch line 10: Unsupported`
  5  reading or writing failed
  6  memory ran out";

/// The end of the help of `nets`.
pub const NETS: &str = "\
It prints a line for each net that is to be routed: its number and its name in the netlist, and, by
their numbers in `graph`, the node that it begins at and those that it must reach. The device is
that of the placement's array.

Example, in examples/uart:
  $ pathfinder nets uart.net k4n1.arch uart.place --width 6
  net 0 rx source 96 sinks 341 375
  net 2 tx source 28 sinks 218
  ..

Exit status:
  0  printed
  2  words that the command line may not have
  4  bad input, as `error: net line 10: BadLine`
  5  reading or writing failed
  6  memory ran out";

/// The help of `--explain`.
pub const EXPLAIN: &str = "\
Where a file is refused, also tell on standard error the line, the
word and what to do; on a terminal that is always told";

/// The help of `check --explain`.
pub const EXPLAIN_CHECK: &str = "\
Also tell on standard error what is wrong, net by net and in words, or
where a file is refused (on a terminal always) the line, the word and
what to do";

/// The help of `--workers`.
pub const WORKERS: &str = "\
Threads that route at once, 1 to 16; with more than one the routing
differs from run to run, unless --follow repeats a run";

/// The help of `--iterations`.
pub const ITERATIONS: &str = "Iterations at most, 1 to 500";

/// The help of `--first-pres`.
pub const FIRST_PRES: &str = "\
The present-congestion factor of the first iteration, in sixteenths:
8 is 0.5; 0 to 1048576";

/// The help of `--init-pres`.
pub const INIT_PRES: &str = "That of the second iteration, in sixteenths; 0 to 1048576";

/// The help of `--mult`.
pub const MULT: &str = "\
What it is multiplied by in each later iteration, in sixteenths:
32 doubles it; 16 to 256";

/// The help of `--acc`.
pub const ACC: &str = "\
What a node costs more after each iteration that overuses it, for each
net too many: 20 is what one wire costs at first; 0 to 65535";

/// The help of `--log`.
pub const LOG: &str = "\
Also a line for each iteration and each width tried, as it ends, to
this file; - is standard error";

/// The help of `--schedule`.
pub const SCHEDULE: &str = "\
Also which worker made which turn, and after how many others, to this
file, by which --follow repeats the run";

/// The help of `--follow`.
pub const FOLLOW: &str = "\
Repeat the run that wrote this schedule, by as many workers or by one:
the same routing, byte for byte";

/// The help of `--rest`.
pub const REST: &str = "\
Where no routing is found, the trees that the last iteration left, as a
routing file";

/// The help of `--cut`.
pub const CUT: &str = "\
Also the certificate of the bound, to this file";

/// The help of `--keep`.
pub const KEEP: &str = "\
Also the routing of each routed trial, at once, to PREFIX, the width and
.route";

/// The help of `--start`.
pub const START: &str = "\
The width that is tried first, in tracks, 1 to 256; with --upward none
below it is";

/// The help of `--upward`.
pub const UPWARD: &str = "\
Try each width from the bound on, upward, until one is routed";

/// The help of `--verify`.
pub const VERIFY: &str = "\
Also try N narrower widths, and print the outcomes to standard error,
0 to 256";

/// The help of `--no-bound`.
pub const NO_BOUND: &str = "\
Leave out the bound at the end of standard error";

/// The help of `--steady`.
pub const STEADY: &str = "\
Where ways cost the same, keep that of the iteration before, in place of
the one over the lowest-numbered nodes";

/// The help of `--bb`.
pub const BB: &str = "\
How many places outside the box of its terminals a net may be routed,
1 to 255";
