// Laws that are general: numbers below a bound, masks, tables and lists. No code; the definitions and laws are in specs/.
#![tactic(auto)]
