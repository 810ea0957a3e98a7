// The order of sessions.
ghost use Rattle.std.specs.Prelude.{List, [], ◌∷◌};
ghost use Rattle.rast_items.specs.Run.{IsOrdered};
ghost use Rattle.rast_examples.specs.Sessions.{sends, takes, moves};

/// What is taken from a session is the beginning of what was sent, and the k-th that was sent is on link k.
pub fn sessions_law()
    ensures taken_in_order_is_ordered { IsOrdered (sends 0 7 ∷ takes 0 7 ∷ sends 1 8 ∷ takes 1 8 ∷ []) }
    ensures waiting_message_is_ordered { IsOrdered (sends 0 7 ∷ sends 1 8 ∷ takes 0 7 ∷ []) }
    ensures moved_message_is_ordered { IsOrdered (sends 0 7 ∷ moves 0 7 ∷ []) }
    ensures second_taken_first_is_not_ordered { IsOrdered (sends 0 7 ∷ sends 1 8 ∷ takes 1 8 ∷ takes 0 7 ∷ []) → ⊥ }
    ensures message_left_out_is_not_ordered { IsOrdered (sends 0 7 ∷ sends 1 8 ∷ takes 1 8 ∷ []) → ⊥ }
    ensures message_never_sent_is_not_ordered { IsOrdered (sends 0 7 ∷ takes 0 7 ∷ takes 1 8 ∷ []) → ⊥ }
    ensures other_label_is_not_ordered { IsOrdered (sends 0 7 ∷ takes 0 8 ∷ []) → ⊥ }
    ensures taken_twice_is_not_ordered { IsOrdered (sends 0 7 ∷ takes 0 7 ∷ takes 0 7 ∷ []) → ⊥ }
    ensures taken_from_next_link_is_not_ordered { IsOrdered (sends 0 7 ∷ takes 1 7 ∷ []) → ⊥ }
    ensures begun_at_link_one_is_not_ordered { IsOrdered (sends 1 7 ∷ []) → ⊥ }
    ensures link_left_out_is_not_ordered { IsOrdered (sends 0 7 ∷ sends 2 8 ∷ []) → ⊥ }
    ensures link_used_twice_is_not_ordered { IsOrdered (sends 0 7 ∷ sends 0 8 ∷ []) → ⊥ }
    ensures moved_to_next_link_is_not_ordered { IsOrdered (sends 0 7 ∷ moves 1 7 ∷ []) → ⊥ }
    ensures moved_with_other_label_is_not_ordered { IsOrdered (sends 0 7 ∷ moves 0 8 ∷ []) → ⊥ }
{}
