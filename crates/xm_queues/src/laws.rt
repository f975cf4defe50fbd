//! What holds of all queues. Each of these functions has an empty body, and its clause is the law.
ghost use Rattle.std.specs.Prelude.{◌≡◌, ℕ, List, Contains};
ghost use Rattle.xm_queues.specs.Queue.{IsQueue, keys_of};
ghost use Rattle.xm_queues.specs.declared.links.Link.{Link};
ghost use Rattle.xm_queues.specs.declared.queues.Ends.{Ends};

/// A key is in one queue at most: two queues that share one hold the same keys.
pub fn a_key_is_in_one_queue()
    ensures { (links : List Link) (ends ends' : Ends) (keys keys' : List ℕ) (key : ℕ) → IsQueue links ends keys
        → IsQueue links ends' keys' → Contains keys key → Contains keys' key → keys ≡ keys' }
{}

/// The links and the ends of a queue tell its keys.
pub fn a_queue_has_one_list()
    ensures { (links : List Link) (ends : Ends) (keys : List ℕ) → IsQueue links ends keys
        → keys_of links ends ≡ keys }
{}
