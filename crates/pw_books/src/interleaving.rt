ghost use Rattle.std.specs.Prelude.{◌≡◌, ◌≢◌, ◌<◌, ◌≤◌, ◌+◌, ◌++◌, ◌∷◌, ℕ, [], List};
ghost use Rattle.std.specs.Prelude.{length, slice_index_or, sum_by, take};
ghost use Rattle.std.specs.List.{AllByRecursion};
ghost use Rattle.pw_books.specs.declared.calls.Calls.{Calls as calls};
ghost use Rattle.pw_books.specs.Books.{calls_of, count_in, entries_of, grown};
ghost use Rattle.pw_books.specs.Asked.{Faultless, IsRunOf, Telling, cpu_of, own, requests};
ghost use Rattle.pw_books.specs.Seats.{AskedBySeats, SeatsTell};
ghost use Rattle.pw_books.specs.Workers.{AreApart, Ended, Filled, HasAsked, HasWorker, MadeByWorkers};
ghost use Rattle.pw_books.specs.Workers.{Worked, Worker as worker};
ghost use Rattle.pw_books.specs.Workers.{joined_down, joined_up, seat_of};

/// What is told of entries and requests.
pub trait Tells<E, Q> {
    ghost telling: { Telling E Q };
}

/// What seats have made that ask the requests of one processor each is a history of the requests, and
/// its seats tell the processors apart; and each history of the requests that has such seats is made so.
pub fn seats_make_histories<E, Q, H: Tells<E, Q>>()
    ensures lawful { (asked : List Q) (seats : ℕ → ℕ) (es : List E)
        → AskedBySeats H.telling asked seats es → IsRunOf H.telling asked es }
    ensures seats { (asked : List Q) (seats : ℕ → ℕ) (es : List E)
        → AskedBySeats H.telling asked seats es → SeatsTell H.telling.seat (cpu_of H.telling) es }
    ensures asked { (asked : List Q) (seats : ℕ → ℕ) (es : List E)
        → ((p r : ℕ) → seats p ≡ seats r → p ≡ r)
        → AllByRecursion (λ (e : E). H.telling.seat e ≡ seats (cpu_of H.telling e)) es
        → IsRunOf H.telling asked es → AskedBySeats H.telling asked seats es }
{}

/// A history that makes a beginning of the requests in their order, and all of them where no entry is a
/// fault, is one of them.
pub fn serial_runs_are_runs<E, Q, H: Tells<E, Q>>()
    ensures { (asked rest : List Q) (es : List E) → asked ≡ requests H.telling es ++ rest
        → (Faultless H.telling es → requests H.telling es ≡ asked) → IsRunOf H.telling asked es }
{}

/// A history of requests asks no more than these, by whatever is counted of a request.
pub fn runs_ask_no_more<E, Q, H: Tells<E, Q>>()
    ensures { (count : Q → ℕ) (asked : List Q) (es : List E) → IsRunOf H.telling asked es
        → sum_by count (requests H.telling es) ≤ sum_by count asked }
{}

/// A worker goes over its requests: it begins with a seat that has asked nothing, an entry of its seat
/// for the next one is one step, and it ends behind the last one or at a fault, or is refused where the
/// history is full.
pub fn workers_make_their_lines<E, Q, H: Tells<E, Q>>()
    ensures begins { (n : ℕ) → HasAsked H.telling [] n (calls_of n [] ∷ []) }
    ensures next { (lines : List Q) (k n : ℕ) (book : List (calls E)) (e : E) (q : Q)
        → HasAsked H.telling (take k lines) n book → k < length lines
        → slice_index_or lines k q ≡ H.telling.request e → H.telling.seat e ≡ n
        → HasAsked H.telling (take (k + 1) lines) n (grown H.telling.seat book e) }
    ensures whole { (lines : List Q) (n : ℕ) (book : List (calls E)) (seen : List E)
        → HasAsked H.telling lines n book → Worked H.telling lines n book seen }
    ensures fault { (lines : List Q) (k n : ℕ) (book : List (calls E)) (before : List E) (e : E) (q : Q)
        → HasAsked H.telling (take k lines) n book → k < length lines
        → slice_index_or lines k q ≡ H.telling.request e → H.telling.seat e ≡ n → H.telling.fault e ≢ 0
        → Worked H.telling lines n (grown H.telling.seat book e) (before ++ e ∷ []) }
    ensures filled { (lines : List Q) (room k n : ℕ) (book : List (calls E)) (seen : List E)
        → HasAsked H.telling (take k lines) n book → room ≤ length seen
        → Filled H.telling lines room n book seen }
    ensures stopped { (lines : List Q) (k n : ℕ) (book : List (calls E)) (seen : List E)
        → HasAsked H.telling (take k lines) n book → (Faultless H.telling seen → ⊥)
        → Worked H.telling lines n book seen }
{}

/// What workers have made whose seats were joined to one is a history of the requests, and its seats
/// tell the processors apart.
pub fn workers_make_histories<E, Q, H: Tells<E, Q>>()
    ensures asked { (asked : List Q) (workers : List (worker E)) (book : List (calls E)) (es : List E)
        → MadeByWorkers H.telling asked workers book es → AskedBySeats H.telling asked (seat_of workers) es }
    ensures lawful { (asked : List Q) (workers : List (worker E)) (book : List (calls E)) (es : List E)
        → MadeByWorkers H.telling asked workers book es → IsRunOf H.telling asked es }
    ensures seats { (asked : List Q) (workers : List (worker E)) (book : List (calls E)) (es : List E)
        → MadeByWorkers H.telling asked workers book es
        → SeatsTell H.telling.seat (cpu_of H.telling) es }
{}

/// Workers are gathered one by one, behind the others: one of another processor leaves them apart, and
/// all are there once each processor with requests has one. Their seats' books are joined one by one,
/// from the first or from the last.
pub fn workers_are_gathered<E, Q, H: Tells<E, Q>>()
    ensures apart { (workers : List (worker E)) (w : worker E) → AreApart workers
        → AllByRecursion (λ (v : worker E). v.cpu ≢ w.cpu) workers → AreApart (workers ++ w ∷ []) }
    ensures has { (workers : List (worker E)) (w : worker E) (p : ℕ) → HasWorker workers p
        → HasWorker (workers ++ w ∷ []) p }
    ensures has_last { (workers : List (worker E)) (w : worker E) → HasWorker (workers ++ w ∷ []) w.cpu }
    ensures all { (count : ℕ) (asked : List Q) (workers : List (worker E))
        → AllByRecursion (λ (q : Q). H.telling.cpu q < count) asked
        → ((p : ℕ) → p < count → own H.telling p asked ≢ [] → HasWorker workers p)
        → (p : ℕ) → own H.telling p asked ≢ [] → HasWorker workers p }
    ensures ended { (asked : List Q) (workers : List (worker E))
        → AllByRecursion (λ (w : worker E).
        Worked H.telling (own H.telling w.cpu asked) w.number w.book w.seen) workers
        → AllByRecursion (Ended H.telling asked) workers }
    ensures up { (book : List (calls E)) (workers : List (worker E)) (w : worker E)
        → joined_up book (workers ++ w ∷ []) ≡ joined_up book workers ++ w.book }
    ensures down { (book : List (calls E)) (workers : List (worker E)) (w : worker E)
        → joined_down book (workers ++ w ∷ []) ≡ joined_down (book ++ w.book) workers }
    ensures numbers { (book : List (calls E)) (es : List E)
        → ((n : ℕ) → 0 < length (entries_of H.telling.seat n es) → count_in n book ≡ 1)
        → AllByRecursion (λ (e : E). count_in (H.telling.seat e) book ≡ 1) es }
{}
