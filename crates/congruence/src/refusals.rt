// Every refusal of the module, with the number that it is told by.

#[derive(Clone, Copy, Debug, PartialEq, Eq)]
pub enum Refusal {
    // the planner's
    SocketOutOfRange = 1,
    SocketOccupied = 2,
    SocketEmpty = 3,
    PeriodOutOfRange = 4,
    WaitNotBelowPeriod = 5,
    RatingUnlawful = 6,
    // the load's
    LimitPassed = 7,
    TooManySettings = 8,
    FitPassesLimit = 9,
    // the file writer's
    UnknownTag = 10,
    WrongLength = 11,
    FileEndsInRecord = 12,
    OpenMisplaced = 13,
    UnknownKind = 14,
    FileTooLong = 15,
    // the builder's
    BeyondReach = 16,
    BufferTooShort = 17,
}
