//! The calls of `lab`: how each is written, and what it answers.

/// The table of calls: a line for each way to write a call, and below, after blanks, what it
/// answers.
pub const CALLS: &str = "\
read FILE
  how many bytes
lines FILE
  each line as `NUMBER: WORDS`
number W
fixed W
is_decimal W
  the number that a word is
arch FILE
  reads an architecture; counts
io_rat
class_count
class_size C
class_direction C
fc_type
fc_output
fc_input
fc_pad
pins
segments
switches
  the entries of the architecture
copy_arch
  whether a copy is equal
net FILE
place FILE
  reads a netlist or a placement; counts, or the array
blocks
block B
block_net B PIN
  kind, name, and nets of its pins; the net of one pin
netlist
net_at N
  nets: `NAME [global] DRIVER -> SINKS`, a terminal being `BLOCK` or `BLOCK.CLASS`
block_named NAME
net_named NAME
site B
  the number of a name; the site of a block
device NX NY W [global]
  makes a device; how many nodes
node ID
id KIND X Y NUMBER
  the node of a number, `KIND X Y NUMBER`, and back; kinds are `Source`, `Sink`, `Opin`,
  `Ipin`, `Chanx`, `Chany`
kind ID
label ID
capacity ID
span ID
wire ID
sink_of ID
is_source ID
is_sink ID
  look-ups of a node; a wire is `KIND REACH SPAN`
tracks
track_types
track_type T
  how many wires run through a place; the types of tracks
successors ID
edge A B
lacks_edge A B ..
joins A B ..
  edges; `joins` asks one finder for pair after pair
node_count
edge_count
first_wire
most_successors
parts
  the whole device
walk_nodes N
walk_numbers N
walk_successors N
walk_wires N
walk_edges N
walk_joins N
  N walks over the device, for timing; how many, and `sum S`
copy_device
has_architecture
suits
dump_device
  whether a copy is equal, it has the architecture, the design suits; all nodes with their
  successors
problem
  the problem of netlist and placement on the device; how many nets
problem W [global]
  the same on the device of the placement's array, which becomes the device
problem <<
  the problem of the parts below on the device, by lines `net NUMBER: SOURCE -> SINK ..`
nets
net_number N
source N
sinks N
copy_problem
dump_problem
  look-ups of the problem
tree TREE
attach ROW: NODE ..
  how many rows. TREE is `SOURCE NODE ..`, then `ROW: NODE ..` for each further path
check_tree N
  `legal`, or the fault of the tree for net N
marks_fit
  whether the last check's marks fit the problem
rows
row_node R
pair_count
pair I
covers ID
copy_tree
dump_tree
  look-ups of the tree
routing <<
  a routing, by a line of pairs of numbers for each net, after `pairs` or not, or `none`; how
  many lists
routing_of_trees <<
  a routing, by a line with the tree of each net, or `none`
fits
check
dump_routing
  whether it fits the problem; `legal`, or its fault; its lists
route FILE
  reads the routing of the design on the device
read_back
  whether the legal routing's text is read as the routing
write
write failing N
  the text; or how much was taken before the sink failed
node_uses
  how many nets cover each used node
wirelengths
  the wirelength of each net
overused_nodes
  `ID: USED of CAPACITY, nets N ..`
figures_of
  nets, nets with a list, wires, places, the total wirelength, the greatest, and its net
net_figures
  bends, wires and places of the nets: in all, and the most, with its net
channel_uses
  each channel: the occupancy of each place, the most and the sum
wire_type_uses
  each wire type: tracks, wires and places
settings FIRST INIT MULT ACC BB ITERATIONS
settings standard
settings
  chooses settings; with a last word `steady` nets keep to their trees; the chosen ones
present ITERATION
  an iteration's present-congestion factor
cost BASE HISTORY CAPACITY OTHERS PRESENT
  the cost of entering such a node
counts NODES
count ID
set_count ID COUNT
add_one ID
take_one ID
dump_counts
  how many nets use each of so many nodes, at most 6,476,800; those above 0
copy_counts
  gives the other counts what these are
histories NODES
history_at ID
is_none ID
set_history ID HISTORY
copy_histories
dump_histories
  the histories of so many nodes, as `counts`; whether copies are equal; those above 0
view
view NODES
  an empty view of the problem's nodes, or of so many
set ID: OTHERS HISTORY
leave_out ID
seen ID
is_free ID
  what a net sees of a node; whether nothing
look_at
dump_view
  shows the counts and histories; the nodes with something to see
search NET PRESENT BB
  the net's tree by the view, or `no path to SINK`
search_faults
  the texts of a search's faults
book
book ACC
  a book of the problem, with the settings' factor or this one; how many nets
draw WORKER
  the net drawn, whose view becomes the view; `none`, or the fault
look NET
  the view becomes the net's by the trees as they are: `looked`, or the fault
has_filled NET
  whether others have filled a node of the tree since the view
commit WORKER NET
commit WORKER NET TREE
  records the tree: `committed`, or the fault
pass WORKER NET
close
  `passed` or `closed`, or the fault
run <<
  the events of the lines below, written like the calls; the reply to each, or `memory after N
  events`
run timed <<
  the same; how many replies, and the time of the events (read before)
book_tree NET
occupancy ID
history ID
turns ITERATION
  look-ups of the book; turns are `WORKER NET`, with `passed` after it
rows_of_overuse
overused
excess
unrouted
wirelength
fresh
dump_book
  rows are `NODE AMOUNT ..`; the whole book: trees, nodes with `OCCUPANCY HISTORY`, rows,
  turns
iterate K WORKERS [GATE]
iterate_nets K WORKERS [GATE]
  iteration K of the book: the report of each worker, or the turn at each net; after a fault
  the book is gone. GATE is `open`, `meeting N`, `holding W`, `counting` or `timing`
workspace
  a new workspace of the book's problem; how many nets
iterate_in K WORKERS [GATE]
iterate_nets_in K WORKERS [GATE]
  `iterate` and `iterate_nets` in the workspace
negotiate WORKERS [GATE]
  `routed, iterations I`, and the routing is kept, or `not routed: ..`
negotiate_again WORKERS SEED
  a negotiation with random delays by SEED, and two that repeat its turns, by as many workers
  and by one thread: the first one's line, and `the same` for each that is
least_width START WORKERS [global] [GATE]
  a line for each trial, and `least W` or `none`; the routing is kept
desk WORKERS <<
  events at a desk of the book, by lines `draw W`, `commit W NET TREE`, `pass W NET`; the
  replies, and each share's count of turns
both_gates [alone] <<
  what both halves of a pair of gates hear, in order; `alone`: the first half is no gate. Lines
  are `begins`, `opened I NETS`, `schedule I`, `between W N`, `stuck N SINK`, `looked W N`,
  `searched W N`, `accepts I W N`, `closed I`, `found`, `left`, `tries W`, `tried W routed I`,
  `tried W unrouted UNROUTED OVERUSED I`
run_arch FILE
run_net FILE
run_place FILE
run_route FILE
  keeps a file for runs; with `failing N` its source fails after N bytes
out_sink failing N
route_sink failing N
words_sink failing N
out_sink whole
route_sink whole
words_sink whole
  after how many bytes the sinks of runs fail
dump_files
  the bytes of each file for runs, and after how many each source and sink fails
graph_run NX NY W [global]
route_run W WORKERS [global] [GATE]
width_run START WORKERS [global] [GATE]
check_run W [global]
  a command of the program over the kept files: its status, the line of its fault, and what
  its sinks took
report_run W [global] [full] [map] [json]
  a report of the kept files: its status, the line of its fault, and what its sinks took
explain_run W [global]
  a check with its explanation: its status, the line of its fault, and what its sinks took;
  the sink `words` takes the explanation, which names the file `route`
explain FILE
  explains the problem's routing, with the netlist's names and the file's lines
fault_line WHAT
  a fault's status and line. WHAT is `unread arch` (or another file), `unwritten`, `memory`,
  `no_thread` or `astray`
progress [unwanted] <<
  what progress writes to a terminal, after which line. Lines are `at MILLISECONDS`, which
  sets its clock, `opened I NETS`, `between W N`, `searched W N`, `closed I UNROUTED
  OVERUSED`, `tries W`, `tried W routed I`, `tried W unrouted UNROUTED OVERUSED I`, `end`
other KIND
  exchanges the value with the other one: `there is one` or `none`; kinds are `arch`, `net`,
  `device`, `problem`, `tree`, `counts`, `view`
same KIND
suits_other
  whether the two are equal; whether the device suits the netlist with the other netlist's
  placement
time N CALL ..
repeat N CALL ..
  makes a call N times: the time, or the last answer
help
  the names of all calls
help CALL
  how a call is written, and what it answers
mark WORD
mark
  prints a line with WORD after each answer from now on, so that a program that drives `lab`
  knows where one ends; or no such line
quit
  ends the script
";
