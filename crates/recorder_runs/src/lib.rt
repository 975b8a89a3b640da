// Nothing runs here: two lists of calls with a recorder among them, and what the rules make of them, computed. They
// take half a minute, so they have a crate of their own; `isolation` makes two runs of the program of them. Read
// specs/Lists.antt first.
#![tactic(auto)]
