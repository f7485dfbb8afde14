// What a history of calls says of each id, and which answer is due to the next call. No slot, mask or table is in it.
#![tactic(auto)]

ghost use Rattle.std.specs.Prelude.{ℕ, List};
ghost use Rattle.history.specs.Calls.{History};
ghost use Rattle.history.specs.Stays.{Terms};
ghost use Rattle.history.specs.Answers.{OneAnswer, SomeAnswer, FetchedIfWhole, FetchedOnce};
ghost use Rattle.history.specs.Orders.{OrdersAgree};

/// Does nothing. Its promise is what holds of all histories.
///
/// - After any history just one answer is due to a call.
/// - A fetch hands out a message exactly where the state is whole and the buffer has room, and just once a stay.
/// - Two histories of the same arrivals alone, each in an order of its own, neither with an answer 21 or 22, agree on each id.
pub fn histories_agree()
    ensures one_answer { OneAnswer }
    ensures some_answer { SomeAnswer }
    ensures fetched_if_whole { (t : Terms) (h : History) (id : List ℕ) → FetchedIfWhole t h id }
    ensures fetched_once { (t : Terms) (h : History) (id : List ℕ) → FetchedOnce t h id }
    ensures any_order { OrdersAgree }
{}
