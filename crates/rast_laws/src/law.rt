// Runs of accepted programs keep what acceptance promises.
ghost use Rattle.std.specs.Prelude.{List};
ghost use Rattle.rast_items.specs.Deeds.{Code};
ghost use Rattle.rast_items.specs.Run.{State, IsRun};
ghost use Rattle.rast_items.specs.declared.event.Event.{Event};
ghost use Rattle.rast_laws.specs.Sound.{IsReady, IsSound};

/// After every run of a program that is well made and accepted, with its plan: links are provided once and used before they
/// are provided, each process meets a judgement of its node and each message fits what is due on its link, sessions are
/// ordered, work and held potential together are main's, no process is without a rule, and where none has an event and none
/// is halted the configuration is finished.
pub fn sound_law()
    ensures { (c : Code) (es : List Event) (st : State) → IsReady c → IsRun c es st → IsSound c es st }
{}
