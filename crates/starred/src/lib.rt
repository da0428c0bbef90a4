// Document 01's starred cases, proved of the definitions. No code: the table stands in specs/.
#![tactic(auto)]
