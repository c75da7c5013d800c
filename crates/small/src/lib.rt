// Every small request, in order (RULES.md, 19), as definitions: which requests are small, and in which order they are listed. It has no code;
// the list is written by small_requests.
#![tactic(auto)]
