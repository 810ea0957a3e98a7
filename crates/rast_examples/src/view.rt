// Equality of types, and views.
ghost use Rattle.std.specs.Prelude.{List, [], ◌∷◌, ℤ};
ghost use Rattle.rast_types.specs.Closed.{closed, Equal, EqualTo, Serves, Suits};
ghost use Rattle.rast_types.specs.declared.ty.Ty.TheVariants as ty;
ghost use Rattle.rast_examples.specs.Views.{none, choice, one, plain, after, pays, gets, at};

/// Types are equal where they show the same ticks and heads of one kind, with the same number, the same ways to a part
/// and equal parts.
pub fn equality_law()
    ensures type_equals_itself { Equal none (plain (after 2 choice)) (plain (after 2 choice)) }
    ensures one_is_equal_at_any_numbers { (xs ys : List ℤ) → Equal none (closed one xs) (closed one ys) }
    ensures equal_to_depth_one { EqualTo none 1 (plain (pays 1 one)) (plain (pays 1 choice)) }
    ensures not_equal_to_depth_two { EqualTo none 2 (plain (pays 1 one)) (plain (pays 1 choice)) → ⊥ }
    ensures other_ticks_are_not_equal { Equal none (plain (after 2 one)) (plain (after 3 one)) → ⊥ }
    ensures ticks_before_it_are_not_equal { Equal none (plain (after 1 one)) (plain one) → ⊥ }
    ensures plus_and_with_are_not_equal { Equal none (plain choice) (plain (ty.With ((2, one) ∷ []))) → ⊥ }
    ensures pays_and_gets_are_not_equal { Equal none (plain (pays 1 one)) (plain (gets 1 one)) → ⊥ }
    ensures other_amounts_are_not_equal { Equal none (plain (pays 1 one)) (plain (pays 2 one)) → ⊥ }
    ensures other_labels_are_not_equal { Equal none (plain choice) (plain (ty.Plus ((3, one) ∷ []))) → ⊥ }
    ensures fewer_labels_are_not_equal { Equal none (plain (ty.Plus ((2, one) ∷ (3, one) ∷ []))) (plain choice) → ⊥ }
    ensures more_labels_are_not_equal { Equal none (plain choice) (plain (ty.Plus ((2, one) ∷ (3, one) ∷ []))) → ⊥ }
    ensures other_inner_types_are_not_equal { Equal none (plain (pays 1 one)) (plain (pays 1 choice)) → ⊥ }
    ensures other_branches_are_not_equal { Equal none (plain choice) (plain (ty.Plus ((2, choice) ∷ []))) → ⊥ }
    ensures other_first_parts_are_not_equal { Equal none (plain (ty.Tensor one one)) (plain (ty.Tensor choice one)) → ⊥ }
    ensures other_second_parts_are_not_equal { Equal none (plain (ty.Tensor one one)) (plain (ty.Tensor one choice)) → ⊥ }
{}

/// A provider's view serves a client's where they arrive at one time at equal heads, and a moment suits a view where it is
/// the time of its arrival.
pub fn views_law()
    ensures ticks_before_head_serve { Serves none (at 3 (after 2 choice)) (at 5 choice) }
    ensures head_serves_ticks_before_it { Serves none (at 5 choice) (at 3 (after 2 choice)) }
    ensures other_moment_does_not_serve { Serves none (at 3 choice) (at 4 choice) → ⊥ }
    ensures later_provider_does_not_serve { Serves none (at 4 (after 2 choice)) (at 5 choice) → ⊥ }
    ensures earlier_provider_does_not_serve { Serves none (at 3 (after 1 choice)) (at 5 choice) → ⊥ }
    ensures other_ticks_do_not_serve { Serves none (at 3 (after 1 choice)) (at 3 (after 2 choice)) → ⊥ }
    ensures other_head_does_not_serve { Serves none (at 3 (after 2 choice)) (at 5 one) → ⊥ }
    ensures other_inner_type_does_not_serve { Serves none (at 5 (pays 1 one)) (at 5 (pays 1 choice)) → ⊥ }
    ensures time_of_arrival_suits { Suits none (at 3 (after 2 choice)) 5 }
    ensures later_moment_does_not_suit { Suits none (at 3 (after 2 choice)) 6 → ⊥ }
    ensures earlier_moment_does_not_suit { Suits none (at 3 (after 2 choice)) 4 → ⊥ }
    ensures moment_of_view_does_not_suit { Suits none (at 3 (after 2 choice)) 3 → ⊥ }
{}
