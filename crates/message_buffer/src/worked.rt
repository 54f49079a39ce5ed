ghost use Rattle.std.specs.Prelude.{◌≡◌, true, false, [], ◌∷◌};
ghost use Rattle.value_order.specs.declared.TheConstants.{NOTHING};
ghost use Rattle.value_order.specs.declared.order.Order.TheVariants.{Least, Mask};
ghost use Rattle.message_buffer.specs.Buffers.{new_buffer, all_waiting, waiting_in};
ghost use Rattle.message_buffer.specs.Posted.{after_steps, values_posted, batches_begun, all_values_posted, all_batches_begun};
ghost use Rattle.message_buffer.specs.Worked.{fold_between};

/// What a worked list of steps with a fold leaves, by class: which values were posted, how many batches began, and what a
/// buffer has after them.
pub fn rows()
    ensures untagged_values { values_posted false 0 fold_between ≡ 14 ∷ 7 ∷ 12 ∷ [] }
    ensures folded_value { values_posted false 1 fold_between ≡ 5 ∷ [] }
    ensures tagged_values { values_posted true 0 fold_between ≡ 3 ∷ [] }
    ensures no_tagged_value { values_posted true 1 fold_between ≡ [] }
    ensures untagged_batches { batches_begun false fold_between ≡ 3 }
    ensures tagged_batches { batches_begun true fold_between ≡ 1 }
    ensures values { all_values_posted 0 fold_between ≡ 14 ∷ 7 ∷ 3 ∷ 12 ∷ [] }
    ensures batches { all_batches_begun fold_between ≡ 4 }
    ensures least { after_steps (new_buffer Least 2) fold_between
        ≡ record { order = Least; plain = 7 ∷ 5 ∷ []; tagged = 3 ∷ NOTHING ∷ []; plain_batches = 3; tagged_batches = 1 } }
    ensures mask { after_steps (new_buffer Mask 2) fold_between
        ≡ record { order = Mask; plain = 4 ∷ 5 ∷ []; tagged = 3 ∷ NOTHING ∷ []; plain_batches = 3; tagged_batches = 1 } }
    ensures taken { all_waiting (after_steps (new_buffer Mask 2) fold_between) ≡ 0 ∷ 5 ∷ [] }
    ensures waiting { waiting_in (after_steps (new_buffer Least 3) fold_between) ≡ 2 }
{}
