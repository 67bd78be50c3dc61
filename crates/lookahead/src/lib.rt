// Nothing runs here: what lookahead learns of a grammar (the scope, "What the cache learns"), as definitions and laws. The crates above cite them:
// `configurations` and `closing` work on packed configurations, `learning` gives the outcomes.
#![tactic(auto)]
