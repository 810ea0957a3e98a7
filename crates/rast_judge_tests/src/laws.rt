// The laws of runs have no body, and may be called.
use rast_laws::sound_law;
use rast_order::{links_law, numbers_law, order_law};

#[test]
fn laws_of_runs_are_called() {
    sound_law();
    order_law();
    links_law();
    numbers_law();
}
