// The choice by a test, what an answer tells, and laws of lists that the kit does not have. No code.
#![tactic(auto)]
