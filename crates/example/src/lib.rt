// Document 01's listing of the batch, as an example that the prover computes through all the definitions, from the bytes of the
// input to those of the answers (specs/Example). There is no code: what the program does with any input the contracts of `batch` say.
#![tactic(auto)]
