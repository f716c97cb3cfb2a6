ghost use Rattle.std.specs.Prelude.{◌≡◌, ◌<◌, [], ◌∷◌, Some, IfOk};

use interact_queue::InteractQueue;
use owned_lists::NoMemory;
use std::alloc::Global;

/// The first connection has the token, and the second waits for it.
pub fn held(alloc: Global) -> Result<InteractQueue, NoMemory>
    ensures waiting { IfOk result (λ queue. queue.waiting ≡ 2 ∷ []) }
    ensures holder { IfOk result (λ queue. queue.holder ≡ Some 1) }
    ensures room { IfOk result (λ queue. 0 < queue.spare) }
{
    let mut queue = InteractQueue::new(alloc);
    queue.reserve(3)?;
    queue.ask(1);
    queue.grant();
    queue.ask(2);
    Ok(queue)
}
