// Theorems about builds: axes are independent, what was built is served, and a preview is the build's answer. Statements in specs/.
// There is no code here.
#![tactic(auto)]
