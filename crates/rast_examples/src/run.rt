// Runs and their ends.
ghost use Rattle.std.specs.Prelude.{List, [], ◌∷◌, ◌^◌};
ghost use Rattle.rast_items.specs.Links.{pid_at, link_at};
ghost use Rattle.rast_items.specs.Run.{IsRun, ArePidsApart};
ghost use Rattle.rast_items.specs.Ends.{IsPoised, AreIdle, IsFinished};
ghost use Rattle.rast_items.specs.declared.link.Side.TheVariants.{Client, Provider};
ghost use Rattle.rast_items.specs.declared.message.Body.TheVariants.{End};
ghost use Rattle.rast_items.specs.declared.event.Event.TheVariants.{Send};
ghost use Rattle.rast_examples.specs.Configurations.{worker};
ghost use Rattle.rast_examples.specs.Runs.{closing, busy, serving, waiting, large, lost, at, left, with_main, begun, closed, closes, works, delays};

/// A run begins with main at its potential, and each event is the one step that its process can do.
pub fn runs_law()
    ensures no_event_is_a_run { IsRun closing [] (begun 0) }
    ensures close_is_a_run { IsRun closing (closes 0 ∷ []) (closed 0) }
    ensures work_delay_and_close_is_a_run { IsRun busy (works 2 ∷ delays 3 3 ∷ closes 3 ∷ []) (closed 3) }
    ensures other_potential_is_not_a_run { IsRun busy [] (begun 1) → ⊥ }
    ensures close_that_leaves_main_is_not_a_run { IsRun closing (closes 0 ∷ []) (begun 0) → ⊥ }
    ensures close_at_other_moment_is_not_a_run { IsRun closing (closes 1 ∷ []) (closed 1) → ⊥ }
    ensures close_by_other_process_is_not_a_run { IsRun closing (Send (pid_at 1) (link_at 0 0) End 0 0 ∷ []) (closed 0) → ⊥ }
    ensures close_twice_is_not_a_run { IsRun closing (closes 0 ∷ closes 0 ∷ []) (closed 0) → ⊥ }
    ensures other_work_is_not_a_run { IsRun busy (works 1 ∷ delays 3 3 ∷ closes 3 ∷ []) (closed 3) → ⊥ }
    ensures work_left_out_is_not_a_run { IsRun busy (delays 3 3 ∷ closes 3 ∷ []) (closed 3) → ⊥ }
    ensures delay_left_out_is_not_a_run { IsRun busy (works 2 ∷ closes 3 ∷ []) (closed 3) → ⊥ }
    ensures delay_before_its_ticks_is_not_a_run { IsRun busy (works 2 ∷ delays 3 2 ∷ closes 2 ∷ []) (closed 2) → ⊥ }
    ensures large_work_is_not_a_run { IsRun large (works (2 ^ 64) ∷ []) (with_main (at 1 0 0 1 [] ∷ [])) → ⊥ }
{}

/// An item is poised where it waits for its client, a state is idle where no process has an event and none is halted or stuck,
/// and finished where it is idle and each item is poised.
pub fn ends_law()
    ensures message_to_client_is_poised { IsPoised closing 1 (left 0 End Client) }
    ensures process_that_serves_is_poised { IsPoised serving 1 (at 0 0 0 0 []) }
    ensures message_to_provider_is_not_poised { IsPoised closing 1 (left 0 End Provider) → ⊥ }
    ensures process_that_closes_is_not_poised { IsPoised closing 1 (at 0 0 0 0 []) → ⊥ }
    ensures process_that_waits_is_not_poised { IsPoised waiting 1 (at 0 0 0 0 ((1, link_at 1 0) ∷ [])) → ⊥ }
    ensures closed_is_idle { AreIdle closing (closed 0) }
    ensures serving_is_idle { AreIdle serving (begun 0) }
    ensures waiting_is_idle { AreIdle waiting (with_main (at 0 0 0 0 ((1, link_at 1 0) ∷ []) ∷ [])) }
    ensures before_its_close_is_not_idle { AreIdle closing (begun 0) → ⊥ }
    ensures halted_is_not_idle { AreIdle large (begun 0) → ⊥ }
    ensures without_a_rule_is_not_idle { AreIdle lost (begun 0) → ⊥ }
    ensures closed_is_finished { IsFinished closing (closed 0) }
    ensures serving_is_finished { IsFinished serving (begun 0) }
    ensures before_its_close_is_not_finished { IsFinished closing (begun 0) → ⊥ }
    ensures halted_is_not_finished { IsFinished large (begun 0) → ⊥ }
    ensures waiting_is_not_finished { IsFinished waiting (with_main (at 0 0 0 0 ((1, link_at 1 0) ∷ []) ∷ [])) → ⊥ }
    ensures message_left_to_provider_is_not_finished { IsFinished closing (with_main (left 0 End Provider ∷ [])) → ⊥ }
{}

/// No two processes have one number, and no process has a number that none was made with.
pub fn numbers_law()
    ensures main_alone_is_apart { ArePidsApart (begun 0) }
    ensures message_alone_is_apart { ArePidsApart (closed 0) }
    ensures one_number_twice_is_not_apart { ArePidsApart (with_main (at 0 0 0 0 [] ∷ at 0 0 0 0 [] ∷ [])) → ⊥ }
    ensures number_never_made_is_not_apart { ArePidsApart (with_main (at 0 0 0 0 [] ∷ worker (link_at 1 0) ∷ [])) → ⊥ }
{}
