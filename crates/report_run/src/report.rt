//! The report of a routing, and its text.

ghost use Rattle.std.specs.Prelude.{◌≡◌, IfOk};
ghost use Rattle.text_output.specs.Printing.{PrintsTo};
ghost use Rattle.report_run.specs.kept.Members.{before};
ghost use Rattle.report_run.specs.Report.{counted_lines, map_if, map_member_if, net_lines_if, net_members_if, report_json, report_text, route_report_on, route_report_text};

use crate::channels::put_channels;
use crate::figures::put_figures;
use crate::form::ReportForm;
use crate::json_channels::put_list_members;
use crate::json_figures::{put_figure_members, put_longest_member, put_net_members};
use crate::json_map::put_map_member;
use crate::json_overused::put_over_members;
use crate::map::put_map;
use crate::named::put_naming_lines;
use crate::net_lines::put_net_lines;
use crate::over::overused_channels;
use crate::overused::put_overused;
use crate::wire_types::put_types;
use net_file::Netlist;
use route_report::{
    ChannelUse, Figures, NetFigures, OverusedNode, WireTypeUse, channel_uses, figures_of,
    net_figures, node_uses, overused_nodes, wire_type_uses,
};
use route_tree::Routing;
use rr_graph::{Device, Problem};
use std::alloc::{AllocError, Global};
use std::marker::Model;
use text_output::{ByteSink, Printer};
use vpr_text::Lines;
use width_bound::CutFigures;

/// The report of a routing.
#[derive(Drop)]
pub(crate) struct RouteReport {
    /// The number of nets that cover each node, by the node's number.
    uses: Vec<u16>,
    figures: Figures,
    nets: NetFigures,
    types: Vec<WireTypeUse>,
    channels: Vec<ChannelUse>,
    /// How many overused wires run through each place of the channels.
    over: Vec<ChannelUse>,
    overused: Vec<OverusedNode>,
}

impl Model for RouteReport {
    ghost use Rattle.report_run.specs.Report.{RouteReport};

    ghost Value = { RouteReport };

    ghost use Rattle.report_run.specs.kept.Fields.{report_inside};

    ghost view = { report_inside };
}

impl RouteReport {
    /// Returns the report of a routing, legal or not.
    pub(crate) fn new(
        alloc: Global,
        problem: &Problem,
        routing: &Routing,
    ) -> Result<RouteReport, AllocError>
        ensures { IfOk result (λ r. r ≡ route_report_on problem.now routing.now) }
    {
        let uses = node_uses(alloc, problem, routing)?;
        let figures = figures_of(alloc, problem, routing, &uses)?;
        let nets = net_figures(alloc, problem, routing)?;
        let types = wire_type_uses(alloc, problem.device(), &uses)?;
        let channels = channel_uses(alloc, problem.device(), &uses)?;
        let over = overused_channels(alloc, problem.device(), &uses)?;
        let overused = overused_nodes(alloc, problem, routing, &uses)?;
        Ok(RouteReport {
            uses,
            figures,
            nets,
            types,
            channels,
            over,
            overused,
        })
    }

    /// Prints the lines of the report, with the bound of a cut.
    fn put_lines<W: ByteSink>(
        &self,
        out: &mut Printer<'_, W>,
        netlist: &Netlist<'_>,
        problem: &Problem,
        bound: CutFigures,
    )
        ensures { PrintsTo W.ByteSink out.old out.new
            (counted_lines netlist.now problem.now bound self.now) }
    {
        put_figures(out, netlist, problem, bound, &self.figures);
        put_types(out, &self.types);
        put_channels(out, problem.device(), &self.channels);
        put_overused(out, netlist, problem, &self.overused);
    }

    /// Prints the lines on the bends, wires and places of the nets, if they are asked for.
    fn put_nets_if<W: ByteSink>(
        &self,
        out: &mut Printer<'_, W>,
        netlist: &Netlist<'_>,
        problem: &Problem,
        form: ReportForm,
    )
        ensures { PrintsTo W.ByteSink out.old out.new
            (net_lines_if form netlist.now problem.now self.now) }
    {
        if form.full {
            put_net_lines(out, netlist, problem, self.figures.listed, self.nets);
        }
    }

    /// Prints the map of the channels, if it is asked for.
    fn put_map_if<W: ByteSink>(&self, out: &mut Printer<'_, W>, device: &Device, form: ReportForm)
        ensures { PrintsTo W.ByteSink out.old out.new
            (map_if form device.now self.now) }
    {
        if form.map {
            put_map(out, device, &self.channels, &self.over);
        }
    }

    /// Prints the report with the bound of a cut, the lines of the file that name overused nodes,
    /// and what else is asked for.
    fn put_text<W: ByteSink>(
        &self,
        out: &mut Printer<'_, W>,
        netlist: &Netlist<'_>,
        problem: &Problem,
        bound: CutFigures,
        lines: &Lines<'_>,
        form: ReportForm,
    )
        ensures { PrintsTo W.ByteSink out.old out.new
            (route_report_text form netlist.now problem.now bound lines.now self.now) }
    {
        self.put_lines(out, netlist, problem, bound);
        put_naming_lines(out, problem.device(), &self.uses, lines);
        self.put_nets_if(out, netlist, problem, form);
        self.put_map_if(out, problem.device(), form);
    }

    /// Prints the members on the bends, wires and places of the nets, if they are asked for.
    fn put_net_members_if<W: ByteSink>(
        &self,
        out: &mut Printer<'_, W>,
        netlist: &Netlist<'_>,
        problem: &Problem,
        form: ReportForm,
    )
        ensures { PrintsTo W.ByteSink out.old out.new
            (before (net_members_if form netlist.now problem.now self.now)) }
    {
        if form.full {
            put_net_members(out, netlist, problem, self.figures.listed, self.nets);
        }
    }

    /// Prints the member on the map of the channels, if it is asked for.
    fn put_map_member_if<W: ByteSink>(&self, out: &mut Printer<'_, W>, form: ReportForm)
        ensures { PrintsTo W.ByteSink out.old out.new
            (before (map_member_if form self.now)) }
    {
        if form.map {
            put_map_member(out, &self.channels, &self.over);
        }
    }

    /// Prints the report as an object of JSON.
    fn put_json<W: ByteSink>(
        &self,
        out: &mut Printer<'_, W>,
        netlist: &Netlist<'_>,
        problem: &Problem,
        bound: CutFigures,
        lines: &Lines<'_>,
        form: ReportForm,
    )
        ensures { PrintsTo W.ByteSink out.old out.new
            (report_json form netlist.now problem.now bound lines.now self.now) }
    {
        out.push(b"{");
        put_figure_members(out, netlist, problem, bound, &self.figures);
        put_longest_member(out, netlist, problem, &self.figures);
        self.put_net_members_if(out, netlist, problem, form);
        put_list_members(out, problem.device(), &self.types, &self.channels);
        self.put_map_member_if(out, form);
        put_over_members(out, netlist, problem, &self.uses, lines, &self.overused);
        out.push(b"\n");
    }

    /// Prints the report with the bound of a cut and the lines of the file that name overused
    /// nodes, in the form that is asked for.
    pub(crate) fn put<W: ByteSink>(
        &self,
        out: &mut Printer<'_, W>,
        netlist: &Netlist<'_>,
        problem: &Problem,
        bound: CutFigures,
        lines: &Lines<'_>,
        form: ReportForm,
    )
        ensures { PrintsTo W.ByteSink out.old out.new
            (report_text form netlist.now problem.now bound lines.now self.now) }
    {
        if form.json {
            self.put_json(out, netlist, problem, bound, lines, form);
        } else {
            self.put_text(out, netlist, problem, bound, lines, form);
        }
    }
}
