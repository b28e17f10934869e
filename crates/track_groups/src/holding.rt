//! Whether tables of groups are those of a device. They are made in one way and tested in another:
//! what is promised about them is what the test finds.

ghost use Rattle.std.specs.Prelude.{◌≡◌, ℕ, ◌+◌, ◌<◌, ◌≤◌, true, length, IsTrue};
ghost use Rattle.routing_problem.specs.Nodes.{node_at, is_wire_at, wire_in};
ghost use Rattle.track_groups.specs.declared.group.GroupTrack.{GroupTrack};
ghost use Rattle.track_groups.specs.Groups.{group_at, wire_on, wire_told, place_of, IsOn, IsTrack, HasPlace, IsGrouped};
ghost use Rattle.track_groups.specs.kept.ListParts.{HaveTracks};

use crate::group::GroupTrack;
use crate::wires::WireGroups;
use routing_problem::Device;

impl WireGroups {
    /// Whether the wire of a track is listed with this track of this group.
    fn is_placed(&self, place: GroupTrack) -> bool
        requires { IsOn self.now.groups place }
        ensures { IsTrue result → place_of self.now (wire_on self.now.groups place) ≡ place }
    {
        let wire = self.wire(place);
        self.is_listed(wire) && self.place(wire) == place
    }

    /// Whether the wire of a track has the kind, the span and the reach of its group.
    #[tactic(auto, using(crate::proofs::OnTracks::on_within))]
    fn is_alike(&self, device: &Device, place: GroupTrack) -> bool
        requires { IsOn self.now.groups place }
        ensures { IsTrue result
            → wire_in device.now (node_at device.now (wire_on self.now.groups place))
            ≡ wire_told (group_at self.now.groups place.group) }
    {
        let group = self.group(place.group);
        match device.wire(self.wire(place)) {
            None => false,
            Some((kind, span, reach)) => {
                kind == group.kind && (span == group.span && reach == group.reach)
            }
        }
    }

    /// Whether all that has to hold for a track of a group holds.
    fn track_holds(&self, device: &Device, place: GroupTrack) -> bool
        requires { IsOn self.now.groups place }
        ensures { IsTrue result → IsTrack device.now self.now place }
    {
        self.is_placed(place) && self.is_alike(device, place)
    }

    /// Whether it holds for all tracks of a group.
    fn group_holds(&self, device: &Device, group: u32) -> bool
        requires { group < length self.now.groups }
        ensures { IsTrue result → HaveTracks device.now self.now group }
    {
        let tracks = self.group(group).tracks;
        for track in 0..tracks {
            if !self.track_holds(device, GroupTrack { group, track }) {
                return false;
            }
        }
        true
    }

    /// Whether it holds for all groups.
    #[tactic(auto, using(crate::proofs::OnTracks::on_within))]
    fn groups_hold(&self, device: &Device) -> bool
        ensures { IsTrue result
            → (p : GroupTrack) → IsOn self.now.groups p → IsTrack device.now self.now p }
    {
        for group in 0..self.len() {
            if !self.group_holds(device, group) {
                return false;
            }
        }
        true
    }

    /// Whether it holds for all wires of a device.
    #[tactic(auto, using(crate::proofs::AllHold::all_listed))]
    fn wires_hold(&self, device: &Device) -> bool
        ensures { IsTrue result
            → (w : ℕ) → is_wire_at device.now w ≡ true → HasPlace self.now w }
    {
        let end = device.node_count();
        if self.first_wire != device.first_wire() {
            return false;
        }
        for wire in self.first_wire..end {
            if !self.is_wire(wire) {
                return false;
            }
        }
        true
    }

    /// Whether these are the groups of a device.
    pub(crate) fn holds(&self, device: &Device) -> bool
        ensures { IsTrue result → IsGrouped device.now self.now }
    {
        self.wires_hold(device) && self.groups_hold(device)
    }
}
