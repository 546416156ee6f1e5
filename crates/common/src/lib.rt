// What every statement here is written with: a choice by a test, and what it means that a contract determines a function.
#![tactic(auto)]
