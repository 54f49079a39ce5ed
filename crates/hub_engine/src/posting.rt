ghost use Rattle.std.specs.Prelude.{◌&&◌, ◌≡◌, ◌≢◌, ◌<◌, ◌≤◌, [], ◌∷◌, length, slice_index, All, IsTrue};
ghost use Rattle.value_order.specs.declared.TheConstants.{NOTHING};
ghost use Rattle.token_cut.specs.Recording.{is_marked};
ghost use Rattle.pie_core.specs.LocalCalls.{fallen_places};
ghost use Rattle.base_machine.specs.Machine.{posts_to};
ghost use Rattle.hub_engine.specs.Posting.{posted, recorded_with, mails_in, HasMailOf, LeadToDesks, ChangesAreValues, AllCanReceive, mirror_counts, mailed, posts_along, AreBegun, CanBegin};

use crate::desk::Desk;
use crate::sender::Sender;
use graph_core::{Route, Rows};
use pie_core::Local;
use token_cut::CutState;

/// Whether the batches of a worker carry a token: a recording is open, in which it is marked.
pub fn carry_token(cut: &CutState, worker: u32) -> bool
    requires { IsTrue cut.now.recording → worker < length cut.now.parts }
    ensures { result ≡ (cut.now.recording && is_marked worker cut.now) }
{
    cut.recording() && cut.marked(worker)
}

/// Sends each owned value that changed along its routes: to each worker that gets some, in one batch. A batch without a
/// token to a worker that is marked in an open recording is late, and its values also lower what is recorded of that
/// worker's mail.
pub fn post_changes(
    sender: Sender,
    routes: &Rows<Route>,
    local: &Local,
    desks: &mut [Desk],
    cut: &mut CutState,
)
    requires rows { length routes.now ≡ length local.now.before }
    requires lead { LeadToDesks routes.now desks.old }
    requires values { ChangesAreValues local.now.before local.now.values }
    requires receive { AllCanReceive sender.place desks.old }
    requires few { length desks.old ≤ 64 }
    requires parts { HasMailOf desks.old cut.old }
    ensures desks { desks.new ≡ posted sender local.now.before local.now.values routes.now desks.old }
    ensures cut { cut.new ≡ recorded_with sender (λ k. posts_to k local.now.before local.now.values routes.now) cut.old }
{
    match local.fallen() {
        Some(places) => post_listed(sender, routes, local, places, desks, cut),
        None => post_all(sender, routes, local, desks, cut),
    }
}

/// The same, which goes over the list of the places whose values changed.
fn post_listed(
    sender: Sender,
    routes: &Rows<Route>,
    local: &Local,
    places: &[u32],
    desks: &mut [Desk],
    cut: &mut CutState,
)
    requires rows { length routes.now ≡ length local.now.before }
    requires lead { LeadToDesks routes.now desks.old }
    requires values { ChangesAreValues local.now.before local.now.values }
    requires receive { AllCanReceive sender.place desks.old }
    requires few { length desks.old ≤ 64 }
    requires parts { HasMailOf desks.old cut.old }
    requires listed { places.now ≡ fallen_places local.now }
    ensures desks { desks.new ≡ posted sender local.now.before local.now.values routes.now desks.old }
    ensures cut { cut.new ≡ recorded_with sender (λ k. posts_to k local.now.before local.now.values routes.now) cut.old }
{
    let values = local.values();
    let mut begun = [false; 64];
    'listed: for place in places {
        let index = *place as usize;
        post_along(
            sender,
            routes.row(index),
            values[index],
            desks,
            cut,
            &mut begun,
        );
    }
}

/// The same, which goes over all owned places.
fn post_all(
    sender: Sender,
    routes: &Rows<Route>,
    local: &Local,
    desks: &mut [Desk],
    cut: &mut CutState,
)
    requires rows { length routes.now ≡ length local.now.before }
    requires lead { LeadToDesks routes.now desks.old }
    requires values { ChangesAreValues local.now.before local.now.values }
    requires receive { AllCanReceive sender.place desks.old }
    requires few { length desks.old ≤ 64 }
    requires parts { HasMailOf desks.old cut.old }
    ensures desks { desks.new ≡ posted sender local.now.before local.now.values routes.now desks.old }
    ensures cut { cut.new ≡ recorded_with sender (λ k. posts_to k local.now.before local.now.values routes.now) cut.old }
{
    let before = local.before();
    let values = local.values();
    let mut begun = [false; 64];
    'owned: for place in 0..before.len() {
        if before[place] != values[place] {
            post_along(
                sender,
                routes.row(place),
                values[place],
                desks,
                cut,
                &mut begun,
            );
        }
    }
}

/// Posts a value along its routes, and begins a batch for each worker for which none was begun.
fn post_along(
    sender: Sender,
    row: &[Route],
    value: u64,
    desks: &mut [Desk],
    cut: &mut CutState,
    begun: &mut [bool; 64],
)
    requires lead { All (λ r. r.mirror < slice_index (mirror_counts desks.old) r.fragment) row.now }
    requires value { value ≢ NOTHING }
    requires receive { CanBegin sender.place begun.old desks.old }
    requires few { length desks.old ≤ 64 }
    requires parts { HasMailOf desks.old cut.old }
    ensures desks { desks.new ≡ mailed sender begun.old (λ k. posts_along k value row.now) desks.old }
    ensures cut { cut.new ≡ recorded_with sender (λ k. posts_along k value row.now) cut.old }
    ensures begun { AreBegun begun.old (λ k. posts_along k value row.now) begun.new }
{
    'row: for route in row {
        post(sender, *route, value, desks, cut, begun);
    }
}

/// Posts a value to a mirror, in the batch that was begun for its worker, or in a new one.
fn post(
    sender: Sender,
    route: Route,
    value: u64,
    desks: &mut [Desk],
    cut: &mut CutState,
    begun: &mut [bool; 64],
)
    requires lead { route.mirror < slice_index (mirror_counts desks.old) route.fragment }
    requires value { value ≢ NOTHING }
    requires receive { CanBegin sender.place begun.old desks.old }
    requires few { length desks.old ≤ 64 }
    requires parts { HasMailOf desks.old cut.old }
    ensures desks { desks.new ≡ mailed sender begun.old (λ k. posts_along k value (route ∷ [])) desks.old }
    ensures cut { cut.new ≡ recorded_with sender (λ k. posts_along k value (route ∷ [])) cut.old }
    ensures begun { AreBegun begun.old (λ k. posts_along k value (route ∷ [])) begun.new }
{
    let worker = route.fragment as usize;
    let desk = &mut desks[worker];
    if !begun[worker] {
        desk.receive(sender);
        begun[worker] = true;
    }
    desk.buffer.post(sender.tagged, route.mirror, value);
    post_late(sender, route, value, cut);
}

/// Lowers what is recorded of the mail for a mirror, where the batch to its worker is late.
fn post_late(sender: Sender, route: Route, value: u64, cut: &mut CutState)
    requires { IsTrue cut.old.recording → route.mirror < slice_index (mails_in cut.old.parts) route.fragment }
    ensures { cut.new ≡ recorded_with sender (λ k. posts_along k value (route ∷ [])) cut.old }
{
    if !sender.tagged && cut.recording() && cut.marked(route.fragment) {
        cut.late(route.fragment, route.mirror, value);
    }
}
