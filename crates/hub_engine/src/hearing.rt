ghost use Rattle.std.specs.Prelude.{◌≡◌};
ghost use Rattle.stop_probe.specs.Journals.{after_event};
ghost use Rattle.hub_engine.specs.Hearing.{MayHear};

use grape_event::Event;
use stop_probe::Probe;

/// Tells the probe of an event. It hears of Takes, Flags, Asks and answers.
pub fn hear(probe: &mut Probe, event: Event)
    requires { MayHear event probe.old }
    ensures { probe.new ≡ after_event event probe.old }
{
    match event {
        Event::Take { worker, .. } => probe.took(worker),
        Event::Flag { worker } => probe.flag(worker),
        Event::Ask => probe.ask(),
        Event::Ack { worker } => probe.ack(worker),
        Event::Nack { worker } => probe.nack(worker),
        _ => {}
    }
}
