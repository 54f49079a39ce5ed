ghost use Rattle.std.specs.Prelude.{ℕ, List};
ghost use Rattle.message_buffer.specs.Buffers.{new_buffer};
ghost use Rattle.message_buffer.specs.Posted.{Step, after_steps, HasPosted};

use value_order::Order;

/// After any posts, folds and batches begun since it was empty, a buffer has in each class for each mirror the meet of the
/// values posted to it, and the number of batches begun. A post counts in the class that it was made in, and so does a
/// batch, but in the untagged class where a fold came later. So a take gives for each mirror the meet of all values posted
/// to it, and mail waits in all batches begun and for each mirror that a value was posted to.
pub fn buffer_has_what_was_posted()
    ensures { (order : Order) (mirrors : ℕ) (steps : List Step) → HasPosted order mirrors steps (after_steps (new_buffer order mirrors) steps) }
{}
