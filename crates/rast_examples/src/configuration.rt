// Links of a configuration.
ghost use Rattle.std.specs.Prelude.{List, [], ◌∷◌};
ghost use Rattle.rast_items.specs.Items.{IsConfig, link_at};
ghost use Rattle.rast_items.specs.declared.link.Side.TheVariants.{Client, Provider};
ghost use Rattle.rast_items.specs.declared.message.Body.TheVariants.{End};
ghost use Rattle.rast_examples.specs.Configurations.{root, process, main, worker, message, label, channel};

/// Each link is provided once at most, each but main's is used once, and a link is provided after the item that uses it.
pub fn configurations_law()
    ensures main_alone_is_linked { IsConfig root (main [] ∷ []) }
    ensures client_before_provider_is_linked { IsConfig root (main (link_at 1 0 ∷ []) ∷ worker (link_at 1 0) ∷ []) }
    ensures message_to_client_is_linked { IsConfig root (main (link_at 1 0 ∷ []) ∷ message (link_at 1 1) label Client ∷ worker (link_at 1 1) ∷ []) }
    ensures message_to_provider_is_linked { IsConfig root (main (link_at 1 1 ∷ []) ∷ message (link_at 1 1) label Provider ∷ worker (link_at 1 0) ∷ []) }
    ensures end_to_client_is_linked { IsConfig root (main (link_at 1 0 ∷ []) ∷ message (link_at 1 0) End Client ∷ []) }
    ensures carried_channel_is_linked { IsConfig root (main (link_at 1 0 ∷ []) ∷ message (link_at 1 1) channel Client ∷ worker (link_at 1 1) ∷ process 2 (link_at 0 1) [] ∷ []) }
    ensures no_main_is_not_linked { IsConfig root [] → ⊥ }
    ensures main_elsewhere_is_not_linked { IsConfig root (worker (link_at 1 0) ∷ []) → ⊥ }
    ensures no_provider_is_not_linked { IsConfig root (main (link_at 1 0 ∷ []) ∷ []) → ⊥ }
    ensures other_provider_is_not_linked { IsConfig root (main (link_at 1 0 ∷ []) ∷ worker (link_at 1 1) ∷ []) → ⊥ }
    ensures no_client_is_not_linked { IsConfig root (main [] ∷ worker (link_at 1 0) ∷ []) → ⊥ }
    ensures two_providers_are_not_linked { IsConfig root (main (link_at 1 0 ∷ []) ∷ worker (link_at 1 0) ∷ process 2 (link_at 1 0) [] ∷ []) → ⊥ }
    ensures two_clients_are_not_linked { IsConfig root (main (link_at 1 0 ∷ link_at 1 0 ∷ []) ∷ worker (link_at 1 0) ∷ []) → ⊥ }
    ensures provider_before_client_is_not_linked { IsConfig root (worker (link_at 1 0) ∷ main (link_at 1 0 ∷ []) ∷ []) → ⊥ }
    ensures own_link_used_is_not_linked { IsConfig root (main (root ∷ []) ∷ []) → ⊥ }
    ensures message_to_other_side_is_not_linked { IsConfig root (main (link_at 1 0 ∷ []) ∷ message (link_at 1 1) label Provider ∷ worker (link_at 1 1) ∷ []) → ⊥ }
    ensures message_with_other_next_is_not_linked { IsConfig root (main (link_at 1 0 ∷ []) ∷ message (link_at 1 2) label Client ∷ worker (link_at 1 1) ∷ []) → ⊥ }
    ensures message_before_client_is_not_linked { IsConfig root (message (link_at 1 1) label Client ∷ main (link_at 1 0 ∷ []) ∷ worker (link_at 1 1) ∷ []) → ⊥ }
    ensures label_without_next_is_not_linked { IsConfig root (main (link_at 1 0 ∷ []) ∷ message (link_at 1 0) label Client ∷ []) → ⊥ }
    ensures provider_after_end_is_not_linked { IsConfig root (main (link_at 1 0 ∷ []) ∷ message (link_at 1 0) End Client ∷ worker (link_at 1 1) ∷ []) → ⊥ }
    ensures carried_without_provider_is_not_linked { IsConfig root (main (link_at 1 0 ∷ []) ∷ message (link_at 1 1) channel Client ∷ worker (link_at 1 1) ∷ []) → ⊥ }
    ensures carried_and_kept_is_not_linked { IsConfig root (main (link_at 1 0 ∷ link_at 0 1 ∷ []) ∷ message (link_at 1 1) channel Client ∷ worker (link_at 1 1) ∷ process 2 (link_at 0 1) [] ∷ []) → ⊥ }
{}
