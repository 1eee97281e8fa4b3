// The laws of the lines of calls, each on the contract of a function.
ghost use Rattle.text.specs.Lines.{ReadsBack, OnlyLine, PlaceBegins, Places, LimitsBack};

// The line of a call reads as that call.
pub fn reads_back()
    ensures { ReadsBack }
{}

// Only the line of a call reads as that call, and a call that is read can be said by a line.
pub fn only_line()
    ensures { OnlyLine }
{}

// A line that is no call is, up to the place where it ceases, the beginning of some call's line.
pub fn place_begins()
    ensures { PlaceBegins }
{}

// Where some lines cease to be calls.
pub fn places()
    ensures { Places }
{}

// The line of three limits reads as those limits.
pub fn limits_back()
    ensures { LimitsBack }
{}
