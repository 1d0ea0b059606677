ghost use Rattle.st_messages.specs.Laws.{ClaimsGoUp, DeadDrawingsStay, DrawnAreFree, KeptAreStale, RenewedAreStale};
ghost use Rattle.st_messages.specs.Tickets.{TicketsAreTakenOnce};

/// A drawing that isn't live stays so in every run of calls. An answer to a drawing that was renewed is stale. Waiting drawings are claimed
/// in ascending order.
pub fn drawings_are_used_once()
    ensures dead { DeadDrawingsStay }
    ensures renewed { RenewedAreStale }
    ensures claims { ClaimsGoUp }
{}

/// A number that is drawn isn't in use. An answer to a message whose number is only kept is stale.
pub fn numbers_come_again()
    ensures drawn { DrawnAreFree }
    ensures kept { KeptAreStale }
{}

/// At every moment the tickets that were taken are the first that were posted, in order. Each of them stands in the list of exactly one
/// taker, once.
pub fn tickets_are_taken_once()
    ensures { TicketsAreTakenOnce }
{}
