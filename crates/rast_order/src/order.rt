// The order of sessions, for every run in which no two messages ever have the same link.
ghost use Rattle.std.specs.Prelude.{List};
ghost use Rattle.rast_items.specs.Deeds.{Code};
ghost use Rattle.rast_items.specs.Items.{IsConfig, link_at};
ghost use Rattle.rast_items.specs.Run.{State, IsRun, IsOrdered, ArePidsApart};
ghost use Rattle.rast_items.specs.declared.event.Event.{Event};
ghost use Rattle.rast_order.specs.Apart.{StaysApart};

/// On each session the messages taken are, in order and each once, the beginning of those sent,
/// and the k-th that was sent, counted from 0, is on the session's link k.
pub fn order_law()
    ensures { (c : Code) (es : List Event) (st : State) → StaysApart c es → IsRun c es st → IsOrdered es }
{}

/// After every such run each link that is provided is provided once, each that is used is used once
/// and provided later in the list, and each provided link except main's is used.
pub fn links_law()
    ensures { (c : Code) (es : List Event) (st : State) → StaysApart c es → IsRun c es st → IsConfig (link_at 0 0) st.items }
{}

/// After every run no two processes have the same number, and the next child's number is free.
pub fn numbers_law()
    ensures { (c : Code) (es : List Event) (st : State) → IsRun c es st → ArePidsApart st }
{}
