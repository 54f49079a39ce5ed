ghost use Rattle.std.specs.Prelude.{◌≡◌, ◌^◌, ◌<◌, ◌≤◌, ◌==◌, false, not, map, length, All, IfOk};
ghost use Rattle.std.specs.List.{AllZip, AllByRecursion, list_any};
ghost use Rattle.value_order.specs.declared.TheConstants.{NOTHING};
ghost use Rattle.graph_core.specs.Parts.{place_count};
ghost use Rattle.base_machine.specs.Machine.{posts_from};
ghost use Rattle.message_buffer.specs.Buffers.{batches_in};
ghost use Rattle.token_cut.specs.Shapes.{IsPartShape, sizes_in};
ghost use Rattle.hub_engine.specs.Posting.{with_posts};
ghost use Rattle.hub_engine.specs.Openings.{new_desk, new_desks, with_start_mail, HasFewPlaces, IsPartFor, HasPlacesOf, IsEmptyCut};

use crate::desk::{Desk, Seat};
use delay_stretch::Pulse;
use grape_port::NoMemory;
use graph_core::{Fragment, Job, Route, Rows};
use message_buffer::{Buffer, Hand};
use pie_core::Local;
use std::alloc::Global;
use token_cut::{CutState, Part, Phase, Shape, ShapePart, Snapshot};
use value_order::{NOTHING, Order};

/// The routes of each fragment.
pub fn routes_of(alloc: Global, fragments: &[Fragment]) -> Result<Vec<Rows<Route>>, NoMemory>
    requires { All HasFewPlaces fragments.now }
    ensures { IfOk result (λ routes. routes.items ≡ map (λ part. part.routes) fragments.now) }
{
    let mut routes = Vec::with_capacity(alloc, fragments.len())?;
    'parts: for part in fragments {
        routes.push(routes_of_part(alloc, part)?)?;
    }
    Ok(routes)
}

/// The routes of each owned place.
fn routes_of_part(alloc: Global, part: &Fragment) -> Result<Rows<Route>, NoMemory>
    requires { HasFewPlaces part.now }
    ensures { IfOk result (λ rows. rows ≡ part.now.routes) }
{
    let owned = part.owned().len();
    let mut rows = Rows::with_capacity(alloc, owned, owned)?;
    'owned: for place in 0..owned {
        rows.push_row(part.routes(place as u32))?;
    }
    Ok(rows)
}

/// The desk of a worker as the part of a snapshot has it.
fn desk_of(
    alloc: Global,
    part: &Fragment,
    from: &Part,
    order: Order,
    counters: u32,
) -> Result<Desk, NoMemory>
    requires part { IsPartFor part.now from.now }
    ensures { IfOk result (λ desk. desk ≡ new_desk order counters part.now from.now) }
{
    let mirrors = part.mirrors().len() as u32;
    let mut local = Local::new(alloc, part, counters)?;
    local.load(&from.values);
    let hand = Hand::new(alloc, order, mirrors)?;
    let mut buffer = Buffer::new(alloc, order, mirrors)?;
    post_start_mail(&from.mail, &mut buffer);
    Ok(Desk {
        seat: Seat::Here {
            fresh: matches!(from.phase, Phase::Fresh),
            local,
            hand,
        },
        delay: None,
        round: 0,
        pulse: Pulse::new(alloc)?,
        buffer,
        begun: false,
    })
}

/// Posts the mail of a snapshot's part as one untagged batch, where there is some.
fn post_start_mail(mail: &[u64], buffer: &mut Buffer)
    requires mirrors { length mail.now ≤ length buffer.old.plain }
    requires few { length mail.now < 2 ^ 32 }
    requires none { batches_in buffer.old ≡ 0 }
    ensures { buffer.new ≡ with_start_mail mail.now buffer.old }
{
    if has_values(mail) {
        buffer.begin_batch(false);
        post_values(mail, buffer);
    }
}

/// Whether some value isn't `NOTHING`.
fn has_values(mail: &[u64]) -> bool
    ensures { result ≡ list_any (λ value. not (value == NOTHING)) mail.now }
{
    mail.iter().any(|value| *value != NOTHING)
}

/// Posts the values for the mirrors that aren't `NOTHING` in the last untagged batch.
fn post_values(mail: &[u64], buffer: &mut Buffer)
    requires mirrors { length mail.now ≤ length buffer.old.plain }
    requires few { length mail.now < 2 ^ 32 }
    ensures { buffer.new ≡ with_posts false (posts_from 0 mail.now) buffer.old }
{
    'mail: for mirror in 0..mail.len() {
        if mail[mirror] != NOTHING {
            buffer.post(false, mirror as u32, mail[mirror]);
        }
    }
}

/// The desks of the workers, one for each fragment, as a snapshot has them.
pub fn desks_of(
    alloc: Global,
    fragments: &[Fragment],
    start: &Snapshot,
    order: Order,
    counters: u32,
) -> Result<Vec<Desk>, NoMemory>
    requires parts { AllZip IsPartFor fragments.now start.now.parts }
    ensures { IfOk result (λ desks. desks.items ≡ new_desks order counters fragments.now start.now.parts) }
{
    let mut desks = Vec::with_capacity(alloc, fragments.len())?;
    'parts: for (part, from) in fragments.iter().zip(start.parts.iter()) {
        desks.push(desk_of(alloc, part, from, order, counters)?)?;
    }
    Ok(desks)
}

/// A recording for the snapshots of a job, of which none is open. It has room where the job asks for snapshots.
pub fn cut_of(
    alloc: Global,
    job: &Job,
    fragments: &[Fragment],
    order: Order,
) -> Result<CutState, NoMemory>
    requires few { length fragments.now ≤ 64 }
    requires places { All HasFewPlaces fragments.now }
    ensures { IfOk result (λ cut. IsEmptyCut job.now.settings.snapshot order fragments.now cut) }
{
    let parts = if job.settings.snapshot > 0 {
        shapes_of(alloc, fragments)?
    } else {
        Vec::new(alloc)
    };
    CutState::new(alloc, &Shape { order, parts })
}

/// A shape with the sizes of each fragment.
fn shapes_of(alloc: Global, fragments: &[Fragment]) -> Result<Vec<ShapePart>, NoMemory>
    requires { All HasFewPlaces fragments.now }
    ensures shapes { IfOk result (λ parts. AllByRecursion IsPartShape parts.items) }
    ensures sizes { IfOk result (λ parts. sizes_in parts.items ≡ map (λ part. (place_count part, length part.mirrors)) fragments.now) }
{
    let mut parts = Vec::with_capacity(alloc, fragments.len())?;
    'parts: for part in fragments {
        parts.push(shape_part(alloc, part)?)?;
    }
    Ok(parts)
}

/// A shape with the sizes of a fragment.
fn shape_part(alloc: Global, part: &Fragment) -> Result<ShapePart, NoMemory>
    ensures { IfOk result (λ shape. HasPlacesOf part.now shape) }
{
    Ok(ShapePart {
        owned: vec![in alloc; 0; part.owned().len()]?,
        mirrors: vec![in alloc; 0; part.mirrors().len()]?,
    })
}
